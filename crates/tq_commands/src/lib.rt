//! The subcommands of the program but for sessions: their files, their refusals, and what they print.
//!
//! `ask` of `questions.rt` is proved: after success, the statement has an answer over files with the tables' names
//! (`IsAnswered`); an error is one that `IsAskRefusal` allows. The opening of files is only tested.
//!
//! Requests come from `tq_cli`. Their files are read in `files.rt` and `pieces.rt`. A refusal is one fixed line on standard
//! error (`report.rt`), and `refusals.rt` has its details. `progress.rt` shows progress at a terminal, and `profile.rt` prints
//! the profile of `tq ask --explain`.
//!
//! Open `src/questions.rt` first.
#![tactic(auto)]

mod calendars;
mod checks;
mod columns;
mod drawing;
mod files;
mod headers;
mod imports;
mod merges;
mod output;
mod part_file;
mod pieces;
mod profile;
mod progress;
mod questions;
mod read_errors;
mod references;
mod refusals;
mod report;
mod retained;
mod spans;
mod splits;
mod statement_file;

pub use calendars::print_calendar;
pub use checks::check_tables;
pub use files::{paths_of, read_table_files};
pub use headers::catalogue_of;
pub use imports::import_file;
pub use merges::merge_parts;
pub use output::print_bytes;
pub use progress::{ErrorLines, Progress};
pub use questions::{print_answer, print_picture, print_totals};
pub use refusals::{header_copies, refused_load};
pub use report::{Diagnostic, Refusal};
pub use retained::{RetainedFile, retain_if};
pub use splits::split_tables;
