//! Queries over tables that are divided into parts: on several machines, or of more rows than one process takes.
//!
//! `split_plan` finds columns by which the tables of a plan can be divided (`AnswersAddUp` in `specs/Splits.antt`).
//! `divide` reads a table file record by record and writes a file for each part. Any engine executes the statement over
//! the files of each part. `merge_answers` reads the answers and writes the answer over the whole tables.
//!
//! Open `src/plans.rt` first.
#![tactic(auto)]

mod adding;
mod answer_part;
mod columns;
mod combine;
mod dividing;
mod division;
pub mod laws;
mod manifest;
mod merging;
mod part_numbers;
mod plans;

pub use answer_part::{AnswerLayout, AnswerPart, KeyedRow};
pub use columns::answer_columns;
pub use combine::Combine;
pub use dividing::divide;
pub use division::{Divided, Division, DivisionFault};
pub use manifest::{
    MANIFEST_VERSION, Manifest, ManifestColumn, ManifestFault, ManifestTable, answer_layout,
    combine_groups, combine_word, manifest_columns, manifest_text, name_text, read_manifest,
};
pub use merging::{AnswerFaultKind, MergeFault, Merged, merge_answers};
pub use part_numbers::part_number;
pub use plans::{Split, split_plan};
