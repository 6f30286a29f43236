//! Why nothing was reported or compared.

use byte_calls::TooShort;
use outside::Memory;
use std::error::Error;
use std::fmt;
use table_text::TableCode;
use wire_bytes::{ByteCode, ContextFault};

/// Why nothing was reported or compared. The first of these counts, except out of memory, which may
/// come before any of the others.
#[derive(Clone, Copy, Debug, PartialEq, Eq)]
pub enum TableRefusal {
    /// The first of the texts that is no printed table's is that at place `which`, from 0 on: its
    /// first bad line, by its number from 1 on, and the rule that it breaks.
    Table {
        which: usize,
        line: u64,
        code: TableCode,
    },
    /// After `offset` bytes the input ceases to be a context's; `code` says why.
    Fault {
        offset: usize,
        code: ByteCode,
    },
    /// The atom after `offset` bytes of the context, the first such one, isn't spelled as the type
    /// of its field says.
    IllTyped {
        offset: usize,
    },
    /// There is no memory.
    Memory,
    /// The buffer is shorter than what is to be written, which has `size` bytes.
    Room {
        size: usize,
    },
}

impl fmt::Display for TableRefusal {
    ghost use Rattle.std.specs.Prelude.{Some};
    ghost use Rattle.table_calls.specs.FaultTexts.{table_refusal_text};

    ghost output = { λ refusal. Some (table_refusal_text refusal) };

    fn fmt<W: fmt::Write>(&self, f: &mut fmt::Formatter<W>) -> fmt::Result {
        match self {
            TableRefusal::Table { which, line, code } => {
                write!(f, "table {which} line {line} {code}")
            }
            TableRefusal::Fault { offset, code } => write!(f, "offset {offset} {code}"),
            TableRefusal::IllTyped { offset } => write!(f, "offset {offset} IllTyped"),
            TableRefusal::Memory => write!(f, "out of memory"),
            TableRefusal::Room { size } => write!(f, "size {size}"),
        }
    }
}

impl Error for TableRefusal {}

impl From<Memory> for TableRefusal {
    ghost use Rattle.std.specs.Prelude.{◌≡◌};
    ghost use Rattle.table_calls.specs.declared.refusals.TableRefusal.TheVariants.{Memory};

    ghost from_gives = { λ _ refusal. refusal ≡ Memory };

    fn from(_want: Memory) -> TableRefusal {
        TableRefusal::Memory
    }
}

impl From<TooShort> for TableRefusal {
    ghost use Rattle.std.specs.Prelude.{◌≡◌};
    ghost use Rattle.table_calls.specs.declared.refusals.TableRefusal.TheVariants.{Room};

    ghost from_gives = { λ short refusal. refusal ≡ Room short.size };

    fn from(short: TooShort) -> TableRefusal {
        TableRefusal::Room { size: short.size }
    }
}

impl From<ContextFault> for TableRefusal {
    ghost use Rattle.std.specs.Prelude.{◌≡◌};
    ghost use Rattle.table_calls.specs.Refusals.{unreported};

    ghost from_gives = { λ fault refusal. refusal ≡ unreported fault };

    fn from(fault: ContextFault) -> TableRefusal {
        match fault {
            ContextFault::At { offset, code } => TableRefusal::Fault { offset, code },
            ContextFault::Memory => TableRefusal::Memory,
        }
    }
}
