//! Why no field was read or written.

use byte_calls::TooShort;
use outside::Memory;
use std::error::Error;
use std::fmt;
use table_text::{TableCode, TableFault};
use wire_bytes::{ByteCode, ContextFault};

/// Why no field was read or written. The first of these counts, except out of memory, which may
/// come before any of the others.
#[derive(Clone, Copy, Debug, PartialEq, Eq)]
pub enum FieldRefusal {
    /// The text is no printed table's: its first bad line, by its number from 1 on, and the rule
    /// that it breaks.
    Table { line: u64, code: TableCode },
    /// No slot of the table has the name.
    NoField,
    /// The text is no write to the field.
    NoWrite,
    /// After `offset` bytes the input ceases to be a context's; `code` says why.
    Fault { offset: usize, code: ByteCode },
    /// The atom after `offset` bytes of the context, the first such one, isn't spelled as the type
    /// of its field says.
    IllTyped { offset: usize },
    /// There is no memory.
    Memory,
    /// The buffer is shorter than what is to be written, which has `size` bytes.
    Room { size: usize },
}

impl fmt::Display for FieldRefusal {
    ghost use Rattle.std.specs.Prelude.{Some};
    ghost use Rattle.field_calls.specs.FaultTexts.{field_refusal_text};

    ghost output = { λ fault. Some (field_refusal_text fault) };

    fn fmt<W: fmt::Write>(&self, f: &mut fmt::Formatter<W>) -> fmt::Result {
        match self {
            FieldRefusal::Table { line, code } => write!(f, "line {line} {code}"),
            FieldRefusal::NoField => write!(f, "NoField"),
            FieldRefusal::NoWrite => write!(f, "NoWrite"),
            FieldRefusal::Fault { offset, code } => write!(f, "offset {offset} {code}"),
            FieldRefusal::IllTyped { offset } => write!(f, "offset {offset} IllTyped"),
            FieldRefusal::Memory => write!(f, "out of memory"),
            FieldRefusal::Room { size } => write!(f, "size {size}"),
        }
    }
}

impl Error for FieldRefusal {}

impl From<Memory> for FieldRefusal {
    ghost use Rattle.std.specs.Prelude.{◌≡◌};
    ghost use Rattle.field_calls.specs.declared.refusals.FieldRefusal.TheVariants.{Memory};

    ghost from_gives = { λ _ refusal. refusal ≡ Memory };

    fn from(_want: Memory) -> FieldRefusal {
        FieldRefusal::Memory
    }
}

impl From<TooShort> for FieldRefusal {
    ghost use Rattle.std.specs.Prelude.{◌≡◌};
    ghost use Rattle.field_calls.specs.declared.refusals.FieldRefusal.TheVariants.{Room};

    ghost from_gives = { λ short refusal. refusal ≡ Room short.size };

    fn from(short: TooShort) -> FieldRefusal {
        FieldRefusal::Room { size: short.size }
    }
}

impl From<ContextFault> for FieldRefusal {
    ghost use Rattle.field_calls.specs.Refusals.{TellsContext};

    ghost from_gives = { TellsContext };

    fn from(fault: ContextFault) -> FieldRefusal {
        match fault {
            ContextFault::At { offset, code } => FieldRefusal::Fault { offset, code },
            ContextFault::Memory => FieldRefusal::Memory,
        }
    }
}

impl From<TableFault> for FieldRefusal {
    ghost use Rattle.field_calls.specs.Refusals.{TellsTable};

    ghost from_gives = { TellsTable };

    fn from(fault: TableFault) -> FieldRefusal {
        match fault {
            TableFault::At { line, code } => FieldRefusal::Table { line, code },
            TableFault::Memory => FieldRefusal::Memory,
        }
    }
}
