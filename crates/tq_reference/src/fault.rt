// Faults of the reference evaluator.

use std::alloc::AllocError;
use thiserror::Error;

/// Why the rows at an instant are not computed.
#[derive(Clone, Copy, Debug, PartialEq, Eq, Error)]
pub enum ReferenceFault {
    /// A sum is outside the range of `i128`. Sums of the 64-bit numbers of tables never are.
    #[error("TooLarge")]
    TooLarge = 1,
    /// An allocation failed.
    #[error("OutOfMemory")]
    OutOfMemory = 2,
}

impl From<AllocError> for ReferenceFault {
    ghost use Rattle.std.specs.Prelude.{◌≡◌};
    ghost use Rattle.tq_reference.specs.declared.fault.ReferenceFault.TheVariants.{OutOfMemory};

    ghost from_gives = { λ _ fault. fault ≡ OutOfMemory };

    fn from(_error: AllocError) -> ReferenceFault {
        ReferenceFault::OutOfMemory
    }
}
