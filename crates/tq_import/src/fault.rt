// Why a file was not imported.

use std::alloc::AllocError;
use thiserror::Error;

/// The kind of a fault in a record.
#[derive(Clone, Copy, Debug, PartialEq, Eq, Error)]
pub enum RecordFaultKind {
    /// The record and the header have different numbers of fields.
    #[error("different number of fields")]
    FieldCount = 1,
    /// The field is not a number with at most the wanted places, or its units do not fit 64 signed bits.
    #[error("not a number")]
    BadNumber = 2,
    /// The text is not valid UTF-8.
    #[error("not UTF-8")]
    NotUtf8 = 3,
    /// The text has more than 1,000 bytes.
    #[error("text too long")]
    TextTooLong = 4,
    /// The start is not an instant in the format.
    #[error("invalid start")]
    BadFrom = 5,
    /// The end is neither open nor an instant in the format, or the next instant cannot be written.
    #[error("invalid end")]
    BadTo = 6,
    /// The start is not before the end.
    #[error("empty period")]
    EmptyPeriod = 7,
    /// An allocation failed.
    #[error("out of memory")]
    OutOfMemory = 8,
}

impl From<AllocError> for RecordFaultKind {
    ghost use Rattle.std.specs.Prelude.{◌≡◌};
    ghost use Rattle.tq_import.specs.declared.fault.RecordFaultKind.TheVariants.{OutOfMemory};

    ghost from_gives = { λ _ kind. kind ≡ OutOfMemory };

    fn from(_error: AllocError) -> RecordFaultKind {
        RecordFaultKind::OutOfMemory
    }
}

/// The fault of a record: its kind, and the place of the field, from 0.
#[derive(Clone, Copy, Debug, PartialEq, Eq, Error)]
#[error("{kind} in field {place}")]
pub struct RecordFault {
    pub kind: RecordFaultKind,
    pub place: usize,
}

impl From<AllocError> for RecordFault {
    ghost use Rattle.std.specs.Prelude.{◌≡◌};
    ghost use Rattle.tq_import.specs.declared.fault.RecordFaultKind.TheVariants.{OutOfMemory};

    ghost from_gives = { λ _ fault. fault.kind ≡ OutOfMemory };

    fn from(_error: AllocError) -> RecordFault {
        RecordFault {
            kind: RecordFaultKind::OutOfMemory,
            place: 0,
        }
    }
}

/// The fault of a record of a file, with the record's number from 1, which is the header.
#[derive(Clone, Copy, Debug, PartialEq, Eq, Error)]
#[error("{fault} of record {number}")]
pub struct NumberedFault {
    pub number: u64,
    pub fault: RecordFault,
}

/// Why records could not be read: the reader failed (1), or an allocation failed (2).
#[derive(Clone, Copy, Debug, PartialEq, Eq, Error)]
pub enum InputFault {
    #[error("read failed")]
    Read = 1,
    #[error("out of memory")]
    OutOfMemory = 2,
}

impl From<AllocError> for InputFault {
    ghost use Rattle.std.specs.Prelude.{◌≡◌};
    ghost use Rattle.tq_import.specs.declared.fault.InputFault.TheVariants.{OutOfMemory};

    ghost from_gives = { λ _ fault. fault ≡ OutOfMemory };

    fn from(_error: AllocError) -> InputFault {
        InputFault::OutOfMemory
    }
}

/// Why a file was not imported: the first fault of its records, or a failure to read, to write or to allocate.
#[derive(Clone, Copy, Debug, PartialEq, Eq, Error)]
pub enum ImportFault {
    #[error("{0}")]
    Record(NumberedFault),
    #[error("read failed")]
    Read,
    #[error("write failed")]
    Write,
    #[error("out of memory")]
    OutOfMemory,
}

impl From<AllocError> for ImportFault {
    ghost use Rattle.std.specs.Prelude.{◌≡◌};
    ghost use Rattle.tq_import.specs.declared.fault.ImportFault.TheVariants.{OutOfMemory};

    ghost from_gives = { λ _ fault. fault ≡ OutOfMemory };

    fn from(_error: AllocError) -> ImportFault {
        ImportFault::OutOfMemory
    }
}

impl From<InputFault> for ImportFault {
    ghost use Rattle.std.specs.Prelude.{◌≡◌};
    ghost use Rattle.tq_import.specs.Imports.{input_fault};

    ghost from_gives = { λ fault import. import ≡ input_fault fault };

    fn from(fault: InputFault) -> ImportFault {
        match fault {
            InputFault::Read => ImportFault::Read,
            InputFault::OutOfMemory => ImportFault::OutOfMemory,
        }
    }
}
