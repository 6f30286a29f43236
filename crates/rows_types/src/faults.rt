//! Why a row isn't run to its end.

use outside::Memory;
use row_files::RowFault;
use scalar_types::TakeFault;
use std::alloc::{AllocError, AllocFailed};

/// Why a row isn't run to its end.
#[derive(Clone, Copy)]
pub enum RunFault {
    /// The row can't be run.
    Row(RowFault),
    /// What has this name doesn't hold.
    No(&'static str),
    /// There is no memory.
    Memory,
}

/// Sees that what has this name holds.
pub fn holds(name: &'static str, is: bool) -> Result<(), RunFault> {
    if is { Ok(()) } else { Err(RunFault::No(name)) }
}

impl From<RowFault> for RunFault {
    fn from(fault: RowFault) -> RunFault {
        RunFault::Row(fault)
    }
}

impl From<TakeFault> for RunFault {
    fn from(fault: TakeFault) -> RunFault {
        match fault {
            TakeFault::NotSpelled => RunFault::No("taken"),
            TakeFault::Memory => RunFault::Memory,
        }
    }
}

impl From<Memory> for RunFault {
    fn from(_want: Memory) -> RunFault {
        RunFault::Memory
    }
}

impl From<AllocError> for RunFault {
    fn from(_error: AllocError) -> RunFault {
        RunFault::Memory
    }
}

impl<T: Drop> From<AllocFailed<T>> for RunFault {
    fn from(_error: AllocFailed<T>) -> RunFault {
        RunFault::Memory
    }
}
