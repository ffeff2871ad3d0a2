// Why a call failed.

use std::alloc::AllocError;
use thiserror::Error;
use tq_base::Instant;

/// Why no store was opened.
#[derive(Clone, Copy, Debug, PartialEq, Eq, Error)]
pub enum OpenFault {
    /// A place for a reader was refused.
    #[error("NoPlace")]
    NoPlace = 1,
    /// An allocation failed.
    #[error("OutOfMemory")]
    OutOfMemory = 2,
}

/// Why an event was not appended: the first of these that applies.
#[derive(Clone, Copy, Debug, PartialEq, Eq, Error)]
pub enum AppendFault {
    /// The catalogue has no table with this number.
    #[error("UnknownTable")]
    UnknownTable,
    /// The values are not a row of the table.
    #[error("BadValues")]
    BadValues,
    /// The last event, published or pending, has a later time.
    #[error("TooEarly: the last event is at {last:?}")]
    TooEarly { last: Instant },
    /// No row with these values is open and started before the instant.
    #[error("NoOpenRow")]
    NoOpenRow,
    /// The limit on events is reached.
    #[error("TooManyEvents")]
    TooManyEvents,
    /// An allocation failed.
    #[error("OutOfMemory")]
    OutOfMemory,
}

/// Why a query has no answer.
#[derive(Clone, Copy, Debug, PartialEq, Eq, Error)]
pub enum AskFault {
    /// Fewer events than requested were found.
    #[error("TooNew: {seen} events were seen")]
    TooNew { seen: u32 },
    /// The store was not entered.
    #[error("Closed")]
    Closed,
    /// An allocation failed.
    #[error("OutOfMemory")]
    OutOfMemory,
}

/// The store was not entered, for example because the writer has closed it.
#[derive(Clone, Copy, Debug, PartialEq, Eq, Error)]
#[error("Closed")]
pub struct Closed;

/// Why a reader found no events, or fewer than it knows.
#[derive(Drop)]
pub(crate) enum Missed {
    /// No value is shown any more.
    Shut,
    /// A note has more events than were found.
    Stale,
}

/// A place for a reader was refused.
#[derive(Drop)]
pub(crate) struct PlaceRefused;

impl From<AllocError> for AppendFault {
    ghost use Rattle.std.specs.Prelude.{◌≡◌};
    ghost use Rattle.tq_snapshot.specs.declared.faults.AppendFault.TheVariants.{OutOfMemory};

    ghost from_gives = { λ _ fault. fault ≡ OutOfMemory };

    fn from(_error: AllocError) -> AppendFault {
        AppendFault::OutOfMemory
    }
}

impl From<AllocError> for OpenFault {
    ghost use Rattle.std.specs.Prelude.{◌≡◌};
    ghost use Rattle.tq_snapshot.specs.declared.faults.OpenFault.TheVariants.{OutOfMemory};

    ghost from_gives = { λ _ fault. fault ≡ OutOfMemory };

    fn from(_error: AllocError) -> OpenFault {
        OpenFault::OutOfMemory
    }
}

impl From<PlaceRefused> for OpenFault {
    ghost use Rattle.std.specs.Prelude.{◌≡◌};
    ghost use Rattle.tq_snapshot.specs.declared.faults.OpenFault.TheVariants.{NoPlace};

    ghost from_gives = { λ _ fault. fault ≡ NoPlace };

    fn from(_error: PlaceRefused) -> OpenFault {
        OpenFault::NoPlace
    }
}
