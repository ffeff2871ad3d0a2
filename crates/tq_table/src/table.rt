// A table: the names of its columns, and its rows.

use crate::lines::ResultRows;
use tq_base::{List, Name};

/// A table: the names of its columns, and rows with one value for each.
#[derive(Drop, Debug)]
pub struct Table<'a> {
    pub columns: List<Name>,
    pub rows: ResultRows<'a>,
}
