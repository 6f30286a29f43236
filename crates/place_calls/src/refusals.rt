//! Why no places were written.

use outside::Memory;
use std::error::Error;
use std::fmt;
use table_text::{TableCode, TableFault};
use wire_bytes::{ByteCode, ContextFault};

/// Why no places were written. The first of these counts, except out of memory, which may come
/// before any of the others.
#[derive(Clone, Copy, Debug, PartialEq, Eq)]
pub enum PlaceRefusal {
    /// The text is no printed table's: its first bad line, by its number from 1 on, and the rule
    /// that it breaks.
    Table { line: u64, code: TableCode },
    /// No slot of the table has the chosen number at place `which`, from 0 on, the first such one.
    NoSlot { which: usize },
    /// After `offset` bytes the input ceases to be a context's; `code` says why.
    Fault { offset: usize, code: ByteCode },
    /// There is no memory.
    Memory,
    /// The array is too short: `size` places are to be written.
    Room { size: usize },
}

impl fmt::Display for PlaceRefusal {
    ghost use Rattle.std.specs.Prelude.{Some};
    ghost use Rattle.place_calls.specs.FaultTexts.{place_refusal_text};

    ghost output = { λ fault. Some (place_refusal_text fault) };

    fn fmt<W: fmt::Write>(&self, f: &mut fmt::Formatter<W>) -> fmt::Result {
        match self {
            PlaceRefusal::Table { line, code } => write!(f, "line {line} {code}"),
            PlaceRefusal::NoSlot { which } => write!(f, "slot {which} NoSlot"),
            PlaceRefusal::Fault { offset, code } => write!(f, "offset {offset} {code}"),
            PlaceRefusal::Memory => write!(f, "out of memory"),
            PlaceRefusal::Room { size } => write!(f, "size {size}"),
        }
    }
}

impl Error for PlaceRefusal {}

impl From<Memory> for PlaceRefusal {
    ghost use Rattle.std.specs.Prelude.{◌≡◌};
    ghost use Rattle.place_calls.specs.declared.refusals.PlaceRefusal.TheVariants.{Memory};

    ghost from_gives = { λ _ refusal. refusal ≡ Memory };

    fn from(_want: Memory) -> PlaceRefusal {
        PlaceRefusal::Memory
    }
}

impl From<ContextFault> for PlaceRefusal {
    ghost use Rattle.place_calls.specs.Refusals.{PlacesTellContext};

    ghost from_gives = { PlacesTellContext };

    fn from(fault: ContextFault) -> PlaceRefusal {
        match fault {
            ContextFault::At { offset, code } => PlaceRefusal::Fault { offset, code },
            ContextFault::Memory => PlaceRefusal::Memory,
        }
    }
}

impl From<TableFault> for PlaceRefusal {
    ghost use Rattle.place_calls.specs.Refusals.{PlacesTellTable};

    ghost from_gives = { PlacesTellTable };

    fn from(fault: TableFault) -> PlaceRefusal {
        match fault {
            TableFault::At { line, code } => PlaceRefusal::Table { line, code },
            TableFault::Memory => PlaceRefusal::Memory,
        }
    }
}
