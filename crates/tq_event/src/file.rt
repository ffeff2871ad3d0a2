// The input and the results of a load.

use crate::bytes::FileBytes;
use crate::event::Event;
use tq_base::{Catalogue, List, Rows};

/// A table's name and the bytes of its file.
#[derive(Drop, Debug)]
pub struct TableFile {
    pub name: List<u8>,
    pub bytes: FileBytes,
}

/// The tables, and the events of the records of their files, in order.
#[derive(Drop, Debug)]
pub struct Loaded {
    pub catalogue: Catalogue,
    pub events: List<Event>,
}

/// The tables of some files, and the rows of each, in the order of their records.
#[derive(Drop, Debug)]
pub struct Tables {
    pub catalogue: Catalogue,
    pub rows: List<Rows>,
}
