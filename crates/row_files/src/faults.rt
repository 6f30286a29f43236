//! What is wrong with a row.

use outside::Memory;
use std::alloc::{AllocError, AllocFailed};
use std::error::Error;
use std::fmt;

/// What is wrong at a line.
#[derive(Clone, Copy, Debug, PartialEq, Eq)]
pub enum Reason {
    /// The first word is neither a sign nor the name of a field.
    NoName,
    /// There is a sign before the first field.
    NoField,
    /// A backslash comes before what it can't come before.
    Escape,
    /// A line `x` doesn't say how often.
    Count,
    /// A value is no number.
    Number,
    /// A value is no UTF-8.
    Utf8,
    /// A value isn't one of the words that are allowed there.
    Word,
    /// The call has no field of this name.
    Unknown,
    /// A field that is allowed once is there twice.
    Twice,
    /// A row lacks the named field.
    Lacks(&'static str),
}

/// Why a row can't be run: what is wrong at a line, or out of memory.
#[derive(Clone, Copy, Debug, PartialEq, Eq)]
pub enum RowFault {
    At(usize, Reason),
    Memory,
}

impl fmt::Display for Reason {
    fn fmt<W: fmt::Write>(&self, f: &mut fmt::Formatter<W>) -> fmt::Result {
        match self {
            Reason::NoName => write!(f, "no field has such a name"),
            Reason::NoField => write!(f, "there is no field to add to"),
            Reason::Escape => write!(f, "the escape has no such form"),
            Reason::Count => write!(f, "no count stands there"),
            Reason::Number => write!(f, "the value is no number"),
            Reason::Utf8 => write!(f, "the value is no UTF-8"),
            Reason::Word => write!(f, "no such word may stand there"),
            Reason::Unknown => write!(f, "the call has no such field"),
            Reason::Twice => write!(f, "the field stands there twice"),
            Reason::Lacks(name) => write!(f, "the row lacks {name}"),
        }
    }
}

impl fmt::Display for RowFault {
    fn fmt<W: fmt::Write>(&self, f: &mut fmt::Formatter<W>) -> fmt::Result {
        match self {
            RowFault::At(line, reason) => write!(f, "{line}: {reason}"),
            RowFault::Memory => write!(f, "out of memory"),
        }
    }
}

impl Error for RowFault {}

impl From<AllocError> for RowFault {
    fn from(_error: AllocError) -> RowFault {
        RowFault::Memory
    }
}

impl<T: Drop> From<AllocFailed<T>> for RowFault {
    fn from(_error: AllocFailed<T>) -> RowFault {
        RowFault::Memory
    }
}

impl From<Memory> for RowFault {
    fn from(_memory: Memory) -> RowFault {
        RowFault::Memory
    }
}
