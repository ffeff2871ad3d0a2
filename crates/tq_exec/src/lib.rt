//! Executes plans: over tables of rows and over a `Db` as of its first events, on one thread or on several.
//!
//! `specs/Answers.antt` defines the answer of a plan: at each instant of the window, the rows of the ordinary statement
//! over the rows valid then, coalesced. `answer_tables`, `answer`, `answer_among`, `answer_with`, `text_among` and
//! `text_with` promise it, for every number of workers.
//!
//! The operators run over any `Snapshot`: `scan.rt` (scan, filter and join), `aggregate.rt` (counts and sums), and
//! `execution.rt` (projection, EXCEPT ALL and coalescing). Several workers run them over partitions of the rows
//! (`partitions.rt`, `bucket_counts.rt`, `join_partitions.rt`, `group_partitions.rt`), over periods of the window
//! (`period_pieces.rt`) or over ranges of the answer's values (`output_ranges.rt`). The rows of a `Db` are first read in
//! parts of its keys and versions (`reads.rt`). Start with `partitioning.rt`, which chooses among these, and `parallel.rt`.
//! Operators count the rows that they make (`counters.rt`).
#![tactic(auto)]

mod aggregate;
mod aggregate_parts;
mod answer_parts;
mod answer_text;
mod as_of;
mod bucket_counts;
mod counters;
mod endpoints;
mod execution;
mod group_partitions;
mod join_partitions;
mod key_ranges;
pub mod laws;
mod output_ranges;
mod over_store;
mod over_tables;
mod parallel;
mod partition;
mod partition_columns;
mod partition_ids;
mod partitioning;
mod partitions;
mod period_pieces;
mod range_bounds;
mod range_ids;
mod read_parts;
mod read_pieces;
mod reads;
mod required;
mod scan;
mod snapshot;
mod workers;

pub use answer_text::{AnswerText, RenderedAnswer, render, text_among};
pub use as_of::answer;
pub use counters::{Counters, Division, QueryCounters};
pub use execution::{answer_tables, to_owned};
pub use over_store::{answer_with, text_with};
pub use over_tables::answer_among;
pub use partition_columns::{are_linked, can_partition_plan, column_at};
pub use required::required_columns;
pub use snapshot::{Snapshot, TablesOfRows};
pub use workers::Workers;
