// Parts of the files of tables, and the rows of their records.

use tq_base::Rows;

/// The bytes of a table's file from `start` up to, and not including, `end`.
#[derive(Clone, Copy, PartialEq, Eq, Debug)]
pub struct Part {
    pub table: u32,
    pub start: usize,
    pub end: usize,
}

/// The rows of a part.
#[derive(Drop, Debug)]
pub struct PartRows {
    pub part: Part,
    pub rows: Rows,
}
