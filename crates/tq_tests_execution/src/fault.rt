//! Why there is no answer.

use std::alloc::{AllocError, AllocFailed};
use thiserror::Error;
use tq_event::LoadFault;
use tq_plan::PlanFault;
use tq_reference::ReferenceFault;
use tq_sql::SqlFault;

/// The fault of the files, of the statement, of its plan or of its rows; or files whose events are not a history; or a
/// failed allocation.
#[derive(Clone, Copy, Debug, PartialEq, Eq, Error)]
pub(crate) enum Fault {
    #[error(transparent)]
    Load(LoadFault),
    #[error(transparent)]
    Sql(SqlFault),
    #[error(transparent)]
    Plan(PlanFault),
    #[error(transparent)]
    Plain(ReferenceFault),
    #[error("an event is refused")]
    Refused,
    #[error("out of memory")]
    OutOfMemory,
}

impl From<LoadFault> for Fault {
    fn from(fault: LoadFault) -> Fault {
        Fault::Load(fault)
    }
}

impl From<SqlFault> for Fault {
    fn from(fault: SqlFault) -> Fault {
        Fault::Sql(fault)
    }
}

impl From<PlanFault> for Fault {
    fn from(fault: PlanFault) -> Fault {
        Fault::Plan(fault)
    }
}

impl From<ReferenceFault> for Fault {
    fn from(fault: ReferenceFault) -> Fault {
        Fault::Plain(fault)
    }
}

impl From<AllocError> for Fault {
    fn from(_error: AllocError) -> Fault {
        Fault::OutOfMemory
    }
}

impl<T: Drop> From<AllocFailed<T>> for Fault {
    fn from(_error: AllocFailed<T>) -> Fault {
        Fault::OutOfMemory
    }
}
