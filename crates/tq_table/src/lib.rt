//! Coalescing of rows, the text of a table, and its output.
//!
//! `coalesce` makes the layers of any rows: the one ordered, coalesced table in which each row is valid as often as in
//! the input at each instant (`IsLayers` of `tq_base`). `merge` does the same for several ordered lists and does not
//! sort their rows again. `table_text` writes a table as CSV (`text_of` in `specs/Text.antt`). `Sink::send` writes
//! bytes to a writer: all of them, or a prefix and one counted failure.
//!
//! Open `src/coalescing.rt` first.
#![tactic(auto)]

mod amounts;
mod coalescing;
mod layering;
mod lines;
mod merging;
mod prefetched_periods;
mod ranges;
mod row_period_list;
mod sending;
mod sink;
mod table;
mod text;
mod writing;

pub use amounts::{places_at, push_number, push_times};
pub use coalescing::coalesce;
pub use lines::ResultRows;
pub use merging::{chained, merge};
pub use ranges::is_below;
pub use sink::{Sink, WriteFault};
pub use table::Table;
pub use text::{header_text, rows_text, table_text, write_table};
pub use writing::{end_line, line_writer, text_written, write_field, write_line, write_value};
