// Why an answer has no totals.

use std::alloc::AllocError;
use thiserror::Error;

/// Why an answer has no totals. Rows are numbered from 1 in the order of the answer, columns from 0.
#[derive(Clone, Copy, Debug, PartialEq, Eq, Error)]
pub enum TotalsFault {
    /// The first row whose period has no end.
    #[error("the period of row {row} has no end")]
    OpenEnd { row: u64 },
    /// The first row with a text in a summed column, and the first such column.
    #[error("column {column} of row {row} is a text")]
    Text { column: u32, row: u64 },
    /// In a column, the sizes of one group's numbers, each times the length of its period, add up to 2^127 or more.
    #[error("the total of column {column} is too large")]
    Overflow { column: u32 },
    /// An allocation failed.
    #[error("out of memory")]
    OutOfMemory,
}

impl From<AllocError> for TotalsFault {
    ghost use Rattle.std.specs.Prelude.{◌≡◌};
    ghost use Rattle.tq_totals.specs.declared.fault.TotalsFault.TheVariants.{OutOfMemory};

    ghost from_gives = { λ _ fault. fault ≡ OutOfMemory };

    fn from(_error: AllocError) -> TotalsFault {
        TotalsFault::OutOfMemory
    }
}
