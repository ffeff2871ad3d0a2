//! The query engine: from the bytes of CSV files and of a statement to the bytes of the answer, or to the first fault.
//!
//! `write_observed` loads the tables of all files (`tq_load`), without the values of columns that the statement does
//! not name. It parses the statement (`tq_sql`), plans it (`tq_plan`), executes the plan and sends the text of the
//! answer through a `Sink` (`tq_table`). Its contract: after `Ok` the sink has the text of a table that is the answer,
//! as `HasAnswer` says. Files and a statement have exactly one outcome (`src/laws.rt`). `answer_bytes` does the same
//! without an observer.
//!
//! `read_file` reads a file to its end through a `Source`, which counts reads and failed reads. Open `src/writing.rt`
//! first, then `specs/Answers.antt`.
#![tactic(auto)]

mod execution;
mod fault_names;
mod file;
pub mod laws;
mod options;
mod required;
mod source;
mod writing;

pub use execution::{AnswerFault, query_files};
pub use fault_names::{load_name, plan_name, sql_name};
pub use file::{FILE_LIMIT, read_file};
pub use options::AnswerOptions;
pub use source::{FileFault, Source};
pub use writing::{ExecutedQuery, Observer, answer_bytes, write_observed};
