//! Why no step was taken.

ghost use Rattle.std.specs.Prelude.{◌≡◌};
ghost use Rattle.step_calls.specs.Refusals.{write_refusal_at};

use byte_calls::Refusal;
use outside::{Memory, OrMemory};
use std::error::Error;
use std::fmt;
use table_text::{TableCode, TableFault};
use wire_bytes::ByteCode;

/// What is wrong with a line of writes. At one line the first of these counts.
#[derive(Clone, Copy, Debug, PartialEq, Eq)]
pub enum WriteCode {
    /// No slot of the table has the name path that the line begins with, before its first space or
    /// line feed.
    NoField,
    /// What follows the name path is no space, text and line feed, or the text is no write to the
    /// slot.
    NoWrite,
}

/// Why no step was taken. The first of these counts, except out of memory, which may come before
/// any of the others. The buffer is as it was then.
#[derive(Clone, Copy, Debug, PartialEq, Eq)]
pub enum StepRefusal {
    /// The text is no printed table's: its first bad line, by its number from 1 on, and the rule
    /// that it breaks.
    Table {
        line: u64,
        code: TableCode,
    },
    /// The first line that says no write, by its number from 1 on, and what is wrong with it.
    Write {
        line: u64,
        code: WriteCode,
    },
    /// The first input that isn't the bytes of a typed context is that at place `context`, from 0
    /// on: after `offset` bytes they cease to be those of a context, and `code` says why.
    Fault {
        context: usize,
        offset: usize,
        code: ByteCode,
    },
    /// That input is the bytes of a context. The atom after `offset` of them, the first such one,
    /// isn't spelled as the type of its field says.
    IllTyped {
        context: usize,
        offset: usize,
    },
    /// There is no memory.
    Memory,
    /// The buffer is shorter than what is to be written, which has `size` bytes.
    Room {
        size: usize,
    },
}

impl StepRefusal {
    /// The refusal of a text whose line with this number says no write for that reason.
    pub(crate) fn of_line(line: u64, refusal: OrMemory<WriteCode>) -> StepRefusal
        ensures { result ≡ write_refusal_at line refusal }
    {
        match refusal {
            OrMemory::Fault(code) => StepRefusal::Write { line, code },
            OrMemory::Memory => StepRefusal::Memory,
        }
    }
}

impl fmt::Display for WriteCode {
    ghost use Rattle.std.specs.Prelude.{Some};
    ghost use Rattle.step_calls.specs.FaultTexts.{write_code_name};

    ghost output = { λ code. Some (write_code_name code) };

    fn fmt<W: fmt::Write>(&self, f: &mut fmt::Formatter<W>) -> fmt::Result {
        match self {
            WriteCode::NoField => write!(f, "NoField"),
            WriteCode::NoWrite => write!(f, "NoWrite"),
        }
    }
}

impl Error for WriteCode {}

impl fmt::Display for StepRefusal {
    ghost use Rattle.std.specs.Prelude.{Some};
    ghost use Rattle.step_calls.specs.FaultTexts.{step_refusal_text};

    ghost output = { λ refusal. Some (step_refusal_text refusal) };

    fn fmt<W: fmt::Write>(&self, f: &mut fmt::Formatter<W>) -> fmt::Result {
        match self {
            StepRefusal::Table { line, code } => write!(f, "table line {line} {code}"),
            StepRefusal::Write { line, code } => write!(f, "write line {line} {code}"),
            StepRefusal::Fault {
                context,
                offset,
                code,
            } => write!(f, "context {context} offset {offset} {code}"),
            StepRefusal::IllTyped { context, offset } => {
                write!(f, "context {context} offset {offset} IllTyped")
            }
            StepRefusal::Memory => write!(f, "out of memory"),
            StepRefusal::Room { size } => write!(f, "size {size}"),
        }
    }
}

impl Error for StepRefusal {}

impl From<Memory> for StepRefusal {
    ghost use Rattle.std.specs.Prelude.{◌≡◌};
    ghost use Rattle.step_calls.specs.declared.refusals.StepRefusal.TheVariants.{Memory};

    ghost from_gives = { λ _ refusal. refusal ≡ Memory };

    fn from(_want: Memory) -> StepRefusal {
        StepRefusal::Memory
    }
}

impl From<TableFault> for StepRefusal {
    ghost use Rattle.step_calls.specs.Refusals.{StepTellsTable};

    ghost from_gives = { StepTellsTable };

    fn from(fault: TableFault) -> StepRefusal {
        match fault {
            TableFault::At { line, code } => StepRefusal::Table { line, code },
            TableFault::Memory => StepRefusal::Memory,
        }
    }
}

impl From<Refusal> for StepRefusal {
    ghost use Rattle.step_calls.specs.Refusals.{TellsBytes};

    ghost from_gives = { TellsBytes };

    fn from(refusal: Refusal) -> StepRefusal {
        match refusal {
            Refusal::Fault {
                context,
                offset,
                code,
            } => StepRefusal::Fault {
                context,
                offset,
                code,
            },
            Refusal::Memory => StepRefusal::Memory,
            Refusal::Room { size } => StepRefusal::Room { size },
        }
    }
}
