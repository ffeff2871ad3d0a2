//! Answers in the formats of reports: an aligned table, Markdown, TSV, JSON, JSON Lines and CSV.
//!
//! `report` writes a table as its `ReportOptions` say. Its contract cites `report_of` in `specs/Reports.antt`, which defines
//! the bytes: a head, a line or an object for each row, and a foot. Every format writes each value once, in the order of the
//! answer; numbers keep all their digits. `by_time` orders the rows by time, and `typed_text` writes a table file.
//!
//! Open `src/reports.rt` first.
#![tactic(auto)]

mod format;
pub mod laws;
mod layout;
mod lines;
mod options;
mod reports;
mod texts;
mod times;
mod typed_texts;

pub use format::Format;
pub use options::ReportOptions;
pub use reports::report;
pub use times::by_time;
pub use typed_texts::typed_text;
