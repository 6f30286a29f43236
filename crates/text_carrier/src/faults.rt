//! Why lines give no bytes.

use outside::{Memory, OrMemory};
use std::alloc::AllocFailed;
use std::error::Error;
use std::fmt;

/// The rule that a line breaks. At one line the first of these counts.
#[derive(Clone, Copy, Debug, PartialEq, Eq)]
pub enum CarryCode {
    /// The line isn't `p`, two numbers of at most seven digits and one more word, with one space
    /// between two of them.
    Form,
    /// The number of pieces is 0 or above [`crate::PIECES_MAX`], or the piece's number isn't less
    /// than it.
    PieceRange,
    /// The last word is neither a dash nor the base64 of at least one byte, with its padding and
    /// unused bits that are 0.
    BadBase64,
    /// The number of pieces isn't that of the first line of a piece.
    OtherCount,
    /// An earlier line says the piece of this number with another last word.
    Clash,
}

/// Why lines give no bytes. The first bad line counts before all else, and then the first of the
/// others; but out of memory may come before any of them.
#[derive(Clone, Copy, Debug, PartialEq, Eq)]
pub enum CarryFault {
    /// The line of this number, from 1, is the first bad one, and breaks this rule.
    At { line: u64, code: CarryCode },
    /// There is no line of a piece.
    NoLine,
    /// No line says the piece of this number, the least of those that are missing.
    Missing { piece: u64 },
    /// The pieces have more than [`crate::CARRIED_MAX`] bytes in all.
    TooManyBytes,
    /// There is no memory for the bytes, or for what is kept of the lines.
    Memory,
}

impl CarryFault {
    ghost use Rattle.std.specs.Prelude.{◌≡◌};
    ghost use Rattle.text_carrier.specs.Views.{carry_fault_at};

    /// The refusal of a text whose line with this number says no piece for that reason.
    pub(crate) fn of_line(line: u64, refusal: OrMemory<CarryCode>) -> CarryFault
        ensures { result ≡ carry_fault_at line refusal }
    {
        match refusal {
            OrMemory::Fault(code) => CarryFault::At { line, code },
            OrMemory::Memory => CarryFault::Memory,
        }
    }
}

impl From<Memory> for CarryFault {
    ghost use Rattle.std.specs.Prelude.{◌≡◌};
    ghost use Rattle.text_carrier.specs.declared.faults.CarryFault.TheVariants as faults;

    ghost from_gives = { λ _ fault. fault ≡ faults.Memory };

    fn from(_want: Memory) -> CarryFault {
        CarryFault::Memory
    }
}

impl<T: Drop> From<AllocFailed<T>> for CarryFault {
    ghost use Rattle.std.specs.Prelude.{◌≡◌};
    ghost use Rattle.text_carrier.specs.declared.faults.CarryFault.TheVariants as faults;

    ghost from_gives = { λ _ fault. fault ≡ faults.Memory };

    fn from(_error: AllocFailed<T>) -> CarryFault {
        CarryFault::Memory
    }
}

impl fmt::Display for CarryFault {
    ghost use Rattle.std.specs.Prelude.{Some};
    ghost use Rattle.text_carrier.specs.FaultTexts.{carry_fault_text};

    ghost output = { λ fault. Some (carry_fault_text fault) };

    fn fmt<W: fmt::Write>(&self, f: &mut fmt::Formatter<W>) -> fmt::Result {
        match self {
            CarryFault::At { line, code } => write!(f, "line {line} {code}"),
            CarryFault::NoLine => write!(f, "NoLine"),
            CarryFault::Missing { piece } => write!(f, "Missing {piece}"),
            CarryFault::TooManyBytes => write!(f, "TooManyBytes"),
            CarryFault::Memory => write!(f, "out of memory"),
        }
    }
}

impl Error for CarryFault {}

impl Error for CarryCode {}

impl fmt::Display for CarryCode {
    ghost use Rattle.std.specs.Prelude.{Some};
    ghost use Rattle.text_carrier.specs.Views.{carry_code_name};

    ghost output = { λ code. Some (carry_code_name code) };

    fn fmt<W: fmt::Write>(&self, f: &mut fmt::Formatter<W>) -> fmt::Result {
        match self {
            CarryCode::Form => write!(f, "Form"),
            CarryCode::PieceRange => write!(f, "PieceRange"),
            CarryCode::BadBase64 => write!(f, "BadBase64"),
            CarryCode::OtherCount => write!(f, "OtherCount"),
            CarryCode::Clash => write!(f, "Clash"),
        }
    }
}
