//! One writer and up to eight readers of a history that grows.
//!
//! The writer appends events and publishes them. Each reader executes plans as of any count of events, concurrently with
//! the writer, and no later event changes an answer. Contracts see a writer as its published and its pending events. They
//! see a reader as the longest list of events that it has observed, and a note as its events.
//!
//! The contract of a query is that of `Reader::ask`, with `Answers` in `specs/Calls.antt`. The events found are a history
//! that continues the observed ones. The answer is that of the plan as of its first `n` events. Open `src/opening.rt`
//! first, then `src/writer.rt` and `src/reader.rt`.
#![tactic(auto)]

mod book;
mod digest;
mod entering;
mod faults;
mod key;
pub mod laws;
mod note;
mod open_index;
mod open_rows;
mod opening;
mod published;
mod reader;
mod shared;
mod staging;
mod writer;

pub use book::{Opened, StoreId};
pub use faults::{AppendFault, AskFault, Closed, OpenFault};
pub use note::Note;
pub use opening::open;
pub use reader::Reader;
pub use writer::Writer;
