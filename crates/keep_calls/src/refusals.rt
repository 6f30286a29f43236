//! Why nothing was kept.

use byte_calls::Refusal;
use outside::Memory;
use std::error::Error;
use std::fmt;
use table_text::{TableCode, TableFault};
use wire_bytes::ByteCode;

/// Why nothing was written into the buffer. The first of these counts, except out of memory, which
/// may come before any of the others.
#[derive(Clone, Copy, Debug, PartialEq, Eq)]
pub enum KeepRefusal {
    /// The text is no printed table's: its first bad line, by its number from 1 on, and the rule
    /// that it breaks.
    Table {
        line: u64,
        code: TableCode,
    },
    /// The first of the inputs that aren't the bytes of a context is that at place `context`, from
    /// 0 on: its first fault, after `offset` bytes of it.
    Fault {
        context: usize,
        offset: usize,
        code: ByteCode,
    },
    /// There is no memory.
    Memory,
    /// The buffer is shorter than what is to be written, which has `size` bytes.
    Room {
        size: usize,
    },
}

impl fmt::Display for KeepRefusal {
    ghost use Rattle.std.specs.Prelude.{Some};
    ghost use Rattle.keep_calls.specs.Refusals.{keep_refusal_text};

    ghost output = { λ refusal. Some (keep_refusal_text refusal) };

    fn fmt<W: fmt::Write>(&self, f: &mut fmt::Formatter<W>) -> fmt::Result {
        match self {
            KeepRefusal::Table { line, code } => write!(f, "line {line} {code}"),
            KeepRefusal::Fault {
                context,
                offset,
                code,
            } => write!(f, "context {context} offset {offset} {code}"),
            KeepRefusal::Memory => write!(f, "out of memory"),
            KeepRefusal::Room { size } => write!(f, "size {size}"),
        }
    }
}

impl Error for KeepRefusal {}

impl From<Memory> for KeepRefusal {
    ghost use Rattle.std.specs.Prelude.{◌≡◌};
    ghost use Rattle.keep_calls.specs.declared.refusals.KeepRefusal.TheVariants.{Memory};

    ghost from_gives = { λ _ refusal. refusal ≡ Memory };

    fn from(_want: Memory) -> KeepRefusal {
        KeepRefusal::Memory
    }
}

impl From<TableFault> for KeepRefusal {
    ghost use Rattle.keep_calls.specs.Refusals.{KeepTellsTable};

    ghost from_gives = { KeepTellsTable };

    fn from(fault: TableFault) -> KeepRefusal {
        match fault {
            TableFault::At { line, code } => KeepRefusal::Table { line, code },
            TableFault::Memory => KeepRefusal::Memory,
        }
    }
}

impl From<Refusal> for KeepRefusal {
    ghost use Rattle.keep_calls.specs.Refusals.{TellsInputs};

    ghost from_gives = { TellsInputs };

    fn from(refusal: Refusal) -> KeepRefusal {
        match refusal {
            Refusal::Fault {
                context,
                offset,
                code,
            } => KeepRefusal::Fault {
                context,
                offset,
                code,
            },
            Refusal::Memory => KeepRefusal::Memory,
            Refusal::Room { size } => KeepRefusal::Room { size },
        }
    }
}
