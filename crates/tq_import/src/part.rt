// Results for the records of a file. These types have a module of their own because the definitions that contracts cite
// name them.

use csv::Writer;

/// The number of rows that were written.
#[derive(Clone, Copy, Debug, PartialEq, Eq)]
pub struct Imported {
    pub rows: u64,
}

/// The result for some records: their lines, the number of the next record, and whether there may be more records.
#[derive(Drop)]
pub struct Part {
    pub text: Vec<u8>,
    pub next: u64,
    pub more: bool,
}

/// What is written about invalid records: their fields, as CSV with this byte between them, or a message for each, with
/// this path of the file.
#[derive(Clone, Copy, Debug)]
pub enum Rejects<'a> {
    Records(u8),
    Messages(&'a [u8]),
}

/// What is written about invalid records so far: rows of CSV, or messages.
#[derive(Drop)]
pub enum RejectText {
    Rows(Writer<Vec<u8>>),
    Messages(Vec<u8>),
}

/// The numbers of rows that were written, and of invalid records.
#[derive(Clone, Copy, Debug, PartialEq, Eq)]
pub struct Separated {
    pub rows: u64,
    pub invalid: u64,
}

/// The result for some records if invalid ones are not imported: the lines of the valid ones, what is written about the
/// invalid ones and their number, the number of the next record, and whether there may be more records.
#[derive(Drop)]
pub struct SeparatedPart {
    pub text: Vec<u8>,
    pub rejected: Vec<u8>,
    pub invalid: u64,
    pub next: u64,
    pub more: bool,
}
