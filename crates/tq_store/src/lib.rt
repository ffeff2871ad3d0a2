//! The store: a history of events, whose tables are queried as of any number of its events.
//!
//! A `Db` is a catalogue and the admissible events that were applied. For each table it keeps a multiversion tree of
//! its rows' keys, whose versions are numbers of events, and for each row the events that start and end it and its
//! values. An event itself takes 16 bytes: it names the row that has its values (`src/log.rt`).
//!
//! The contract of `Db::rows_part` is `ArePartRows` in `specs/Rows.antt`; that of `Db::rows_in` is `AreValidIn` in
//! `specs/Valid.antt`.
//!
//! Open `src/db.rt` first, then `src/index.rt` and `src/log.rt`.
#![tactic(auto)]

mod db;
mod index;
mod key;
mod laws;
mod log;
mod opening;
mod read;
mod row;
mod stored;
mod valid;

pub use db::Db;
pub use key::{ROWS, first_key, least_tree_key, shift};
pub use laws::{parts_are_valid, rows_appear_once};
pub use log::Events;
pub use opening::open_row;
pub use row::Row;
pub use tq_base::KeyRange;
