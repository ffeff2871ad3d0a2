// Rows of ranges of values.

ghost use Rattle.std.specs.Prelude.{IsSorted, IsTrue};
ghost use Rattle.tq_base.specs.Fragments.{fragment_cmp};
ghost use Rattle.tq_base.specs.Groups.{Below};
ghost use Rattle.tq_base.specs.Ranges.{AreBelow};

use crate::lines::ResultRows;
use std::cmp::Ordering;
use tq_base::Row;

/// Whether the row's values are below the other's at the first place at which they differ. `false` if they differ at
/// none.
pub fn is_below(row: &Row<'_>, other: &Row<'_>) -> bool
    ensures { IsTrue result → Below row.now other.now }
{
    'places: for place in 0..row.len().min(other.len()) {
        match row.value(place).compare(other.value(place)) {
            Ordering::Less => return true,
            Ordering::Greater => return false,
            Ordering::Equal => {}
        }
    }
    false
}

impl ResultRows<'_> {
    /// Whether the values of each row are below those of each row of `others`. Requires that both are in order.
    pub fn are_below(&self, others: &ResultRows<'_>) -> bool
        requires ordered { IsSorted fragment_cmp self.now }
        requires others_ordered { IsSorted fragment_cmp others.now }
        ensures { IsTrue result → AreBelow self.now others.now }
    {
        if self.len() == 0 || others.len() == 0 {
            return true;
        }
        is_below(&self.row(self.len() - 1), &others.row(0))
    }
}
