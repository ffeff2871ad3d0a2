// An answer that is read row by row. Its type has a module of its own because the definitions that contracts cite name it.

ghost use Rattle.tq_split.specs.RowKeys.{IsKeyOf, key_prop};

use crate::combine::Combine;
use csv::{ByteRecord, Reader};
use tq_base::{Column, Form, Fragment};

/// How answers are written and combined: the names and kinds of their columns, the form of their instants, and how the rows
/// of all answers make those of the whole.
#[derive(Drop, Debug)]
pub struct AnswerLayout {
    pub columns: Vec<Column>,
    pub form: Form,
    pub combine: Combine,
}

/// A row, and the normalized key of its first value, which decides most comparisons.
#[derive(Drop)]
pub struct KeyedRow {
    pub row: Fragment,
    pub key: Option<u128>,
    ghost keyed: { IsKeyOf key row.values } by { key_prop key row.values },
}

/// The answer over a part: its next row, if there is one, and a reader of the records after it. `number` is that of the record
/// that was read last; the header is record 1.
#[derive(Drop)]
pub struct AnswerPart<R> {
    pub reader: Reader<R>,
    pub record: ByteRecord,
    pub number: u64,
    pub next: Option<KeyedRow>,
}
