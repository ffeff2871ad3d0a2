// How a table file is divided, and the results. These types have a module of their own because the definitions that
// contracts cite name them.

use std::alloc::AllocError;
use thiserror::Error;
use tq_base::{Column, Form};
use tq_event::LoadFaultKind;
use tq_import::InputFault;

/// How a table file is divided: by the values of this column, counted from 0, with times read in this form. The header
/// line is written to each part file if it `begins` them. Several files of one table can then be divided into the same
/// part files: only the first begins them.
#[derive(Clone, Copy, Debug)]
pub struct Division {
    pub column: u32,
    pub form: Form,
    pub begins: bool,
}

/// The number of rows that were written to all parts together, and the columns of the table.
#[derive(Drop, Debug)]
pub struct Divided {
    pub rows: u64,
    pub columns: Vec<Column>,
}

/// Why a table file was not divided.
#[derive(Clone, Copy, Debug, PartialEq, Eq, Error)]
pub enum DivisionFault {
    /// The records could not be read.
    #[error("{0}")]
    Input(InputFault),
    /// The file has no record.
    #[error("no header")]
    NoHeader,
    /// The header does not have the required form.
    #[error("{0} in the header")]
    Header(LoadFaultKind),
    /// The table does not have the column.
    #[error("no such column")]
    NoColumn,
    /// The record with this number is the first that has no row. The header is record 1.
    #[error("{kind} in record {number}")]
    Record { number: u64, kind: LoadFaultKind },
    /// A part could not be written.
    #[error("write failed")]
    Write,
    /// An allocation failed.
    #[error("out of memory")]
    OutOfMemory,
}

impl From<AllocError> for DivisionFault {
    ghost use Rattle.std.specs.Prelude.{◌≡◌};
    ghost use Rattle.tq_split.specs.declared.division.DivisionFault.TheVariants.{OutOfMemory};

    ghost from_gives = { λ _ fault. fault ≡ OutOfMemory };

    fn from(_error: AllocError) -> DivisionFault {
        DivisionFault::OutOfMemory
    }
}

impl From<InputFault> for DivisionFault {
    ghost use Rattle.std.specs.Prelude.{◌≡◌};
    ghost use Rattle.tq_split.specs.declared.division.DivisionFault.TheVariants.{Input};

    ghost from_gives = { λ fault division. division ≡ Input fault };

    fn from(fault: InputFault) -> DivisionFault {
        DivisionFault::Input(fault)
    }
}

/// How the records of a table with these columns are read: with times in this form, and only the value in this column kept.
/// `wanted` says of each column whether its value is kept.
#[derive(Drop, Debug)]
pub struct Cut {
    pub column: u32,
    pub form: Form,
    pub columns: Vec<Column>,
    pub wanted: Vec<bool>,
}

/// The result for some records: for each part its lines, the number of the next record, and whether there may be more
/// records.
#[derive(Drop, Debug)]
pub struct Batch {
    pub texts: Vec<Vec<u8>>,
    pub next: u64,
    pub more: bool,
}
