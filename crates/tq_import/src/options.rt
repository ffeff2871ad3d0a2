// The options of an import, with columns by the names in the header.

use crate::encoding::Encoding;
use crate::plan::{Conversion, NumberFormat, TimeFormat};
use tq_base::List;

/// A column's name in the header, and its name in the table.
#[derive(Drop, Debug)]
pub struct Rename {
    pub old: List<u8>,
    pub new: List<u8>,
}

/// A column's name in the header, and how its values are converted.
#[derive(Drop, Debug)]
pub struct GivenKind {
    pub name: List<u8>,
    pub conversion: Conversion,
}

/// Which columns are imported, besides the key: all, only those with these names, or all but those.
#[derive(Drop, Debug)]
pub enum Selection {
    All,
    Only(List<List<u8>>),
    Without(List<List<u8>>),
}

/// The options of an import. `delimiter` is the byte between fields. `from`, `to` and `key` are names in the header, in
/// UTF-8 as all texts here; without a key, rows are numbered. Kinds that are not given are found.
#[derive(Drop, Debug)]
pub struct ImportOptions {
    pub encoding: Encoding,
    pub delimiter: u8,
    pub from: List<u8>,
    pub to: List<u8>,
    pub key: Option<List<u8>>,
    pub selection: Selection,
    pub renames: List<Rename>,
    pub kinds: List<GivenKind>,
    pub numbers: NumberFormat,
    pub times: TimeFormat,
}
