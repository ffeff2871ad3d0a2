//! Diagnostics: the lines that explain a fault to the user, after the fixed line of the fault.
//!
//! Six calls, each with its definition: `explain_statement` (`IsDetail` in `specs/Details.antt`), `explain_plan`
//! (`IsPlanDetail` in `specs/PlanDetails.antt`), `explain_file` (`IsFileDetail` in `specs/Files.antt`),
//! `explain_records` (`IsRecordsText` in `specs/InvalidRecords.antt`), `explain_row` (`row_detail` in
//! `specs/RowDetails.antt`) and `explain_command` (`command_detail` in `specs/Commands.antt`). There is no second parser,
//! planner or reader here: these calls run `tq_sql`, `tq_plan` and `tq_event` again on parts of the input.
//!
//! Open `src/statements.rt` first.
#![tactic(auto)]

mod clauses;
mod commands;
mod contents;
mod expected;
mod faults;
mod fields;
mod file_hints;
mod files;
mod header_hints;
mod headers;
mod hints;
mod invalid_records;
mod lines;
mod listing;
mod name_places;
mod nearest;
mod parts;
mod plans;
mod pointing;
mod probe_statement;
mod quotes;
mod records;
mod row_details;
mod statements;

pub use commands::explain_command;
pub use files::explain_file;
pub use invalid_records::explain_records;
pub use plans::explain_plan;
pub use row_details::explain_row;
pub use statements::explain_statement;
