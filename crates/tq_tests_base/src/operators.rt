//! The operators over rows, with their results copied into rows.

ghost use Rattle.std.specs.Prelude.{IfOk};
ghost use Rattle.tq_table.specs.Merging.{AreInOrder, AreOfWidth};

use crate::lists::push_row;
use std::alloc::{AllocError, Global};
use tq_base::{Period, Relation, Rows};
use tq_ops::{Test, except_all, join, join_all, select};
use tq_table::{coalesce, merge};

// The rows of the relation, copied.
fn copied(alloc: Global, relation: &Relation<'_>) -> Result<Rows, AllocError> {
    let mut rows = Rows::new(alloc, relation.width());
    let mut room = Vec::new(alloc);
    for number in 0..relation.len() {
        room.clear();
        relation.row(number).show_all(&mut room)?;
        push_row(&mut rows, &room, &relation.period(number))?;
    }
    Ok(rows)
}

/// The rows that pass, within the window.
pub(crate) fn selected(
    alloc: Global,
    rows: &Rows,
    window: &Period,
    test: Option<&Test>,
) -> Result<Rows, AllocError> {
    let out = select(alloc, Relation::of(alloc, rows)?, window, test)?;
    copied(alloc, &out)
}

/// The pairs that pass, within the window.
pub(crate) fn joined(
    alloc: Global,
    left: &Rows,
    right: &Rows,
    window: &Period,
    test: Option<&Test>,
) -> Result<Rows, AllocError> {
    let left = Relation::of(alloc, left)?;
    let right = Relation::of(alloc, right)?;
    let out = join(alloc, left, right, window, test)?;
    copied(alloc, &out)
}

/// The rows of several sources joined.
pub(crate) fn joined_all(
    alloc: Global,
    first: &Rows,
    others: &[&Rows],
    window: &Period,
    test: Option<&Test>,
) -> Result<Rows, AllocError> {
    let mut relations = Vec::new(alloc);
    for rows in others {
        relations.push(Relation::of(alloc, *rows)?)?;
    }
    let first = Relation::of(alloc, first)?;
    let mut lens = Vec::new(alloc);
    let out = join_all(alloc, first, relations, window, test, &mut lens)?;
    copied(alloc, &out)
}

/// The rows on the left without those on the right, within the window.
pub(crate) fn left_over(
    alloc: Global,
    left: &Rows,
    right: &Rows,
    window: &Period,
) -> Result<Rows, AllocError> {
    let right = Relation::of(alloc, right)?;
    let out = except_all(alloc, Relation::of(alloc, left)?, &right, window)?;
    copied(alloc, &out)
}

/// These columns of the rows.
pub(crate) fn projected(alloc: Global, rows: &Rows, columns: &[u32]) -> Result<Rows, AllocError> {
    let out = Relation::of(alloc, rows)?.project(alloc, columns)?;
    copied(alloc, &out)
}

/// The rows, copied.
pub(crate) fn copy_of(alloc: Global, rows: &Rows) -> Result<Rows, AllocError> {
    copied(alloc, &Relation::of(alloc, rows)?)
}

// The layers of the rows.
fn layers(alloc: Global, rows: &Rows) -> Result<Rows, AllocError>
    ensures width { IfOk result (AreOfWidth rows.now.width) }
    ensures in_order { IfOk result AreInOrder }
{
    coalesce(alloc, Relation::of(alloc, rows)?)?.copied(alloc)
}

/// The layers of all lists together, each list in its layers. Lists with another width are left out.
pub(crate) fn merged(alloc: Global, width: usize, lists: &[&Rows]) -> Result<Rows, AllocError> {
    let mut pieces = Vec::new(alloc);
    'lists: for rows in lists {
        if rows.width() == width {
            pieces.push(layers(alloc, *rows)?)?;
        }
    }
    merge(alloc, width, pieces)?.copied(alloc)
}
