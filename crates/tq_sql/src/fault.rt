// Why a text is not a valid statement.

use std::alloc::{AllocError, AllocFailed};
use thiserror::Error;

/// What is wrong with the text of a statement.
#[derive(Clone, Copy, Debug, PartialEq, Eq, Error)]
pub enum SqlFaultKind {
    /// A byte that begins no token, or at which a quoted text stops being UTF-8.
    #[error("BadByte")]
    BadByte = 1,
    /// No statement can continue with this token, or end here.
    #[error("UnexpectedToken")]
    UnexpectedToken = 2,
    /// A number is not one of 64 signed bits.
    #[error("NumberTooLarge")]
    NumberTooLarge = 3,
    /// A quoted text has no closing quote.
    #[error("UnclosedText")]
    UnclosedText = 4,
    /// A bracket or a NOT opens a 33rd level of a condition.
    #[error("TooDeep")]
    TooDeep = 5,
    /// The statement has more than 65,536 bytes.
    #[error("TooLong")]
    TooLong = 6,
    /// An allocation failed.
    #[error("OutOfMemory")]
    OutOfMemory = 7,
}

/// Why a text is not a valid statement: the kind of fault and its byte, which is 0 for `OutOfMemory`.
#[derive(Clone, Copy, Debug, PartialEq, Eq, Error)]
#[error("{kind} at byte {at}")]
pub struct SqlFault {
    pub kind: SqlFaultKind,
    pub at: u32,
}

impl From<AllocError> for SqlFault {
    ghost use Rattle.std.specs.Prelude.{◌≡◌};
    ghost use Rattle.tq_sql.specs.Faults.{out_of_memory};

    ghost from_gives = { λ _ fault. fault ≡ out_of_memory };

    fn from(_error: AllocError) -> SqlFault {
        SqlFault {
            kind: SqlFaultKind::OutOfMemory,
            at: 0,
        }
    }
}

impl<T: Drop> From<AllocFailed<T>> for SqlFault {
    ghost use Rattle.std.specs.Prelude.{◌≡◌};
    ghost use Rattle.tq_sql.specs.Faults.{out_of_memory};

    ghost from_gives = { λ _ fault. fault ≡ out_of_memory };

    fn from(_error: AllocFailed<T>) -> SqlFault {
        SqlFault {
            kind: SqlFaultKind::OutOfMemory,
            at: 0,
        }
    }
}
