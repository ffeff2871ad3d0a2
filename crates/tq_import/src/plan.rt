// How the records of a file are converted.

use tq_base::{List, Name};

/// How numbers are written: the decimal point, and the separator of thousands, if any.
#[derive(Clone, Copy, Debug, PartialEq, Eq)]
pub struct NumberFormat {
    pub point: u8,
    pub thousands: Option<u8>,
}

/// How the values of a column are converted.
#[derive(Clone, Copy, Debug, PartialEq, Eq)]
pub enum Conversion {
    /// Numbers with at most this number of digits after the point. They become whole numbers of the unit of the last digit.
    Number(usize),
    /// Texts, which stay as they are.
    Text,
}

/// What the instants of dates count.
#[derive(Clone, Copy, Debug, PartialEq, Eq)]
pub enum TimeUnit {
    /// Days, which the table file has as dates.
    Day,
    /// Seconds since 1970-01-01 00:00:00, which the table file has as numbers. A date may have a time.
    Second,
}

/// How periods are written: `dates` is the format of dates, as `dd.mm.yyyy`, or `None` for instants that are written as
/// numbers; `unit` is what the instants of dates count; `open` has the spellings of an open end; `inclusive` says that the
/// last instant of the period is given, and not the next one.
#[derive(Drop, Debug)]
pub struct TimeFormat {
    pub dates: Option<List<u8>>,
    pub unit: TimeUnit,
    pub open: List<List<u8>>,
    pub inclusive: bool,
}

/// A column of the table file: the place of its fields in each record, from 0, its name, and how values are converted.
#[derive(Drop, Debug)]
pub struct PlannedColumn {
    pub place: usize,
    pub name: Name,
    pub conversion: Conversion,
}

/// What becomes of each record: the number of its fields, the columns, the places of the period, and the formats. If
/// `numbered` is set, a column `row` with the numbers 1, 2, .. comes first.
#[derive(Drop, Debug)]
pub struct Plan<'a> {
    pub width: usize,
    pub numbered: bool,
    pub columns: List<PlannedColumn>,
    pub from: usize,
    pub to: usize,
    pub numbers: NumberFormat,
    pub times: &'a TimeFormat,
}
