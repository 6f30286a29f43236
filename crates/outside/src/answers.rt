//! The refusals that have their cause outside: out of memory, and a fault of a source, sink or
//! library.

use std::alloc::{AllocError, AllocFailed};
use std::error::Error;
use std::fmt;

/// Out of memory: the allocator refused to grow a value.
#[derive(Clone, Copy, Debug, PartialEq, Eq)]
pub struct Memory;

/// A fault of a source or a sink. Its count of faults says that it came in this call.
#[derive(Clone, Copy, Debug, PartialEq, Eq)]
pub struct Failed;

/// Why a library answered no file.
#[derive(Clone, Copy, Debug, PartialEq, Eq)]
pub enum LibraryFault {
    /// The library counted a fault.
    Failed,
    /// There is no memory for the file's bytes.
    Memory,
}

/// Why a source was not read to its end.
#[derive(Clone, Copy, Debug, PartialEq, Eq)]
pub enum ReadFault {
    /// The source counted a fault.
    Failed,
    /// The source held more bytes than the limit.
    TooLong,
    /// There is no memory for the bytes.
    Memory,
}

/// A fault, or no memory to find out. Functions inside a crate answer it, where the public answer
/// has more to say of the fault, such as its line.
#[derive(Clone, Copy, Debug, PartialEq, Eq)]
pub enum OrMemory<E> {
    /// The fault.
    Fault(E),
    /// There is no memory for the work.
    Memory,
}

impl fmt::Display for Memory {
    ghost use Rattle.std.specs.Prelude.{Some, codes};

    ghost output = { λ _. Some (codes "out of memory") };

    fn fmt<W: fmt::Write>(&self, f: &mut fmt::Formatter<W>) -> fmt::Result {
        write!(f, "out of memory")
    }
}

impl Error for Memory {}

impl From<AllocError> for Memory {
    fn from(_error: AllocError) -> Memory {
        Memory
    }
}

impl<T: Drop> From<AllocFailed<T>> for Memory {
    fn from(_error: AllocFailed<T>) -> Memory {
        Memory
    }
}

impl fmt::Display for Failed {
    ghost use Rattle.std.specs.Prelude.{Some, codes};

    ghost output = { λ _. Some (codes "failed outside") };

    fn fmt<W: fmt::Write>(&self, f: &mut fmt::Formatter<W>) -> fmt::Result {
        write!(f, "failed outside")
    }
}

impl Error for Failed {}

impl fmt::Display for LibraryFault {
    ghost use Rattle.std.specs.Prelude.{Some};
    ghost use Rattle.outside.specs.FaultTexts.{library_fault_text};

    ghost output = { λ fault. Some (library_fault_text fault) };

    fn fmt<W: fmt::Write>(&self, f: &mut fmt::Formatter<W>) -> fmt::Result {
        match self {
            LibraryFault::Failed => write!(f, "failed outside"),
            LibraryFault::Memory => write!(f, "out of memory"),
        }
    }
}

impl Error for LibraryFault {}

impl fmt::Display for ReadFault {
    ghost use Rattle.std.specs.Prelude.{Some};
    ghost use Rattle.outside.specs.FaultTexts.{read_fault_text};

    ghost output = { λ fault. Some (read_fault_text fault) };

    fn fmt<W: fmt::Write>(&self, f: &mut fmt::Formatter<W>) -> fmt::Result {
        match self {
            ReadFault::Failed => write!(f, "failed outside"),
            ReadFault::TooLong => write!(f, "TooLong"),
            ReadFault::Memory => write!(f, "out of memory"),
        }
    }
}

impl Error for ReadFault {}

impl<E> From<Memory> for OrMemory<E> {
    ghost use Rattle.std.specs.Prelude.{◌≡◌};
    ghost use Rattle.outside.specs.declared.answers.OrMemory.TheVariants.{Memory};

    ghost from_gives = { λ _ answer. answer ≡ Memory };

    fn from(_want: Memory) -> OrMemory<E> {
        OrMemory::Memory
    }
}

impl<T: Drop, E> From<AllocFailed<T>> for OrMemory<E> {
    ghost use Rattle.std.specs.Prelude.{◌≡◌};
    ghost use Rattle.outside.specs.declared.answers.OrMemory.TheVariants.{Memory};

    ghost from_gives = { λ _ answer. answer ≡ Memory };

    fn from(_error: AllocFailed<T>) -> OrMemory<E> {
        OrMemory::Memory
    }
}

impl From<AllocError> for LibraryFault {
    ghost use Rattle.std.specs.Prelude.{◌≡◌};
    ghost use Rattle.outside.specs.declared.answers.LibraryFault.TheVariants.{Memory};

    ghost from_gives = { λ _ fault. fault ≡ Memory };

    fn from(_error: AllocError) -> LibraryFault {
        LibraryFault::Memory
    }
}

impl From<AllocError> for ReadFault {
    ghost use Rattle.std.specs.Prelude.{◌≡◌};
    ghost use Rattle.outside.specs.declared.answers.ReadFault.TheVariants.{Memory};

    ghost from_gives = { λ _ fault. fault ≡ Memory };

    fn from(_error: AllocError) -> ReadFault {
        ReadFault::Memory
    }
}

impl From<Failed> for ReadFault {
    ghost use Rattle.std.specs.Prelude.{◌≡◌};
    ghost use Rattle.outside.specs.declared.answers.ReadFault.TheVariants.{Failed};

    ghost from_gives = { λ _ fault. fault ≡ Failed };

    fn from(_error: Failed) -> ReadFault {
        ReadFault::Failed
    }
}
