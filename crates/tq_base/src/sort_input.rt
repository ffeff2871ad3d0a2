//! The input of a sort: rows of one or two relations, and their keys.

ghost use Rattle.std.specs.Prelude.{◌≡◌, IfOk, length};
ghost use Rattle.std.specs.List.{range_with_len};

use crate::relation::Relation;
use std::alloc::{AllocError, Global};

/// The side of a join or a difference that a row is on. A single relation is the left one.
#[derive(Clone, Copy, PartialEq, Eq, Debug)]
pub enum Side {
    Left,
    Right,
}

/// What sorting learned about a key's values, compared with those of the key before it: nothing, that the key begins a
/// run of other values, or that it goes on with the run.
#[derive(Clone, Copy, PartialEq, Eq, Debug)]
pub enum RunStart {
    Unknown,
    Begins,
    GoesOn,
}

/// The sort key of a row: the normalized key prefix of its first compared value, its start, its number and its side,
/// and whether it begins a run.
#[derive(Clone, Copy, Debug)]
pub struct SortKey {
    pub prefix: u128,
    pub start: u64,
    pub row: u32,
    pub side: Side,
    pub run_start: RunStart,
}

/// The rows of two relations, and the columns of each by which they are compared, the same number for both.
#[derive(Clone, Copy)]
pub struct SortInput<'a> {
    pub left: &'a Relation<'a>,
    pub right: &'a Relation<'a>,
    pub left_columns: &'a [u32],
    pub right_columns: &'a [u32],
    ghost same: { length left_columns.now ≡ length right_columns.now },
}

/// The numbers of `width` columns, from 0 on. `AllocError` if an allocation failed or there are more than 2^32 columns.
pub fn all_columns(alloc: Global, width: usize) -> Result<Vec<u32>, AllocError>
    ensures { IfOk result (λ columns. columns.items ≡ range_with_len 0 width) }
{
    let mut columns = Vec::with_capacity(alloc, width)?;
    'columns: for column in 0..width {
        match u32::try_from(column) {
            Ok(column) => columns.push(column)?,
            Err(_) => return Err(AllocError),
        }
    }
    Ok(columns)
}
