//! Rows with values of their own.

use tq_base::{Period, Values};

/// A row of a table: its number, its values, and its period as of the requested number of events.
#[derive(Drop, Debug)]
pub struct Row {
    pub row: u32,
    pub values: Values,
    pub period: Period,
}
