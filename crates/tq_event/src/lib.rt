//! Loading of CSV files, and histories: lists of events that start and end rows of tables.
//!
//! `load` gives a catalogue and one list of events, ordered by time. `load_tables` gives for each table its rows with
//! their periods; `load_projected` stores of these only the wanted columns. The contracts cite `contents_of` in
//! `specs/Loading.antt`: what the files hold, or the first fault in the order of tables, records and checks.
//! `History::append` accepts exactly the events that may follow (`IsAdmissible` in `specs/History.antt`).
//!
//! Open `src/loading.rt` first; `src/steps.rt` exports its steps for the parallel loader.
#![tactic(auto)]

mod bytes;
mod endpoint;
mod entry;
mod event;
mod fault;
mod file;
mod header;
mod history;
pub mod laws;
mod loading;
mod order;
mod projection;
mod reading;
mod records;
mod single_record;
mod starts;
pub mod steps;

pub use bytes::FileBytes;
pub use event::Event;
pub use fault::{LoadFault, LoadFaultKind};
pub use file::{Loaded, TableFile, Tables};
pub use history::{History, can_start, is_not_before};
pub use loading::{MAX_EVENTS, MAX_TABLES, load, load_projected, load_tables};
pub use single_record::read_values;
