// The rows of an answer, in their order.

ghost use Rattle.std.specs.Prelude.{◌≡◌, ◌<◌, All, IfOk, length, slice_index_or};
ghost use Rattle.tq_base.specs.declared.fragment.Fragment.{Fragment};
ghost use Rattle.tq_base.specs.Relations.{values_at_number};

use std::alloc::{AllocError, Global};
use std::marker::Model;
use tq_base::{Period, Relation, Row, Rows};

/// The rows of an answer, as a relation whose values stay where they are stored. Contracts see the list of rows.
#[derive(Drop, Debug)]
pub struct ResultRows<'a> {
    rows: Relation<'a>,
}

impl<'a> Model for ResultRows<'a> {
    ghost use Rattle.std.specs.Prelude.{List};
    ghost use Rattle.tq_base.specs.declared.fragment.Fragment.{Fragment};

    ghost Value = { List Fragment };

    ghost view = { λ l. l.rows.items };
}

impl<'a> ResultRows<'a> {
    /// The rows of the relation.
    pub fn of(rows: Relation<'a>) -> ResultRows<'a>
        ensures { result ≡ rows.entry.items }
    {
        ResultRows { rows }
    }

    /// The number of rows.
    pub fn len(&self) -> usize
        ensures { result ≡ length self.now }
    {
        self.rows.len()
    }

    /// The number of values in each row.
    pub(crate) fn width(&self) -> usize
        ensures { All (λ (row : Fragment). length row.values ≡ result) self.now }
    {
        self.rows.width()
    }

    /// The values of the row; none if there is no such row.
    pub fn row(&self, line: usize) -> Row<'_>
        ensures { result ≡ values_at_number self.now line }
    {
        self.rows.row(line)
    }

    /// The period of the row.
    pub fn period(&self, line: usize) -> Period
        requires { line < length self.now }
        ensures { (d : Fragment) → result ≡ (slice_index_or self.now line d).period }
    {
        self.rows.period(line)
    }

    /// A copy of the rows with their values. `AllocError` if an allocation failed.
    pub fn copied(&self, alloc: Global) -> Result<Rows, AllocError>
        ensures { IfOk result (λ rows. rows.items ≡ self.now) }
    {
        self.rows.copied(alloc)
    }

    /// A copy that owns its values. `AllocError` if an allocation failed.
    pub fn to_owned<'b>(&self, alloc: Global) -> Result<ResultRows<'b>, AllocError>
        ensures { IfOk result (λ lines. lines ≡ self.now) }
    {
        Ok(ResultRows {
            rows: self.rows.to_owned(alloc)?,
        })
    }
}
