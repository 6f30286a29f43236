//! Why nothing was carried or collected.

use byte_calls::TooShort;
use outside::Memory;
use std::error::Error;
use std::fmt;
use text_carrier::{CarryCode, CarryFault};
use wire_bytes::{ByteCode, ContextFault};

/// What is wrong with lines of pieces: the first five are of one line, and the last three of all of
/// them.
#[derive(Clone, Copy, Debug, PartialEq, Eq)]
pub enum PieceCode {
    /// The line isn't `p`, two numbers of at most seven digits and one more word, with one space
    /// between two of them.
    Form,
    /// The number of pieces is 0 or above [`text_carrier::PIECES_MAX`], or the piece's number isn't
    /// less than it.
    PieceRange,
    /// The last word is neither a dash nor the base64 of at least one byte, with its padding and
    /// unused bits that are 0.
    BadBase64,
    /// The number of pieces isn't that of the first line of a piece.
    OtherCount,
    /// An earlier line says the piece of this number with another last word.
    Clash,
    /// There is no line of a piece.
    NoLine,
    /// No line says a piece.
    Missing,
    /// The pieces have more than [`crate::CARRIED_MAX`] bytes in all.
    TooManyBytes,
}

/// Why nothing was carried or collected. The first of these counts, except out of memory, which may
/// come before any of the others.
#[derive(Clone, Copy, Debug, PartialEq, Eq)]
pub enum PieceRefusal {
    /// The width isn't [`crate::WIDTH_MIN`] to [`crate::WIDTH_MAX`] bytes.
    Width,
    /// The lines say no bytes. `line` is the number of the first bad line, from 1 on; at
    /// [`PieceCode::Missing`] it is the least number of a piece that no line says, from 0 on; at
    /// [`PieceCode::NoLine`] and [`PieceCode::TooManyBytes`] it is 0.
    Pieces { line: u64, code: PieceCode },
    /// After `offset` bytes the input ceases to be a context's; `code` says why.
    Fault { offset: usize, code: ByteCode },
    /// The bytes are a context's, and more than [`crate::CARRIED_MAX`]: `size` bytes.
    Long { size: usize },
    /// There is no memory.
    Memory,
    /// The buffer is shorter than what is to be written, which has `size` bytes.
    Room { size: usize },
}

impl fmt::Display for PieceCode {
    ghost use Rattle.std.specs.Prelude.{Some};
    ghost use Rattle.piece_calls.specs.FaultTexts.{piece_code_name};

    ghost output = { λ code. Some (piece_code_name code) };

    fn fmt<W: fmt::Write>(&self, f: &mut fmt::Formatter<W>) -> fmt::Result {
        match self {
            PieceCode::Form => write!(f, "Form"),
            PieceCode::PieceRange => write!(f, "PieceRange"),
            PieceCode::BadBase64 => write!(f, "BadBase64"),
            PieceCode::OtherCount => write!(f, "OtherCount"),
            PieceCode::Clash => write!(f, "Clash"),
            PieceCode::NoLine => write!(f, "NoLine"),
            PieceCode::Missing => write!(f, "Missing"),
            PieceCode::TooManyBytes => write!(f, "TooManyBytes"),
        }
    }
}

impl Error for PieceCode {}

impl fmt::Display for PieceRefusal {
    ghost use Rattle.std.specs.Prelude.{Some};
    ghost use Rattle.piece_calls.specs.FaultTexts.{piece_refusal_text};

    ghost output = { λ refusal. Some (piece_refusal_text refusal) };

    fn fmt<W: fmt::Write>(&self, f: &mut fmt::Formatter<W>) -> fmt::Result {
        match self {
            PieceRefusal::Width => write!(f, "Width"),
            PieceRefusal::Pieces { line, code } => match code {
                PieceCode::NoLine => write!(f, "NoLine"),
                PieceCode::Missing => write!(f, "Missing {line}"),
                PieceCode::TooManyBytes => write!(f, "TooManyBytes"),
                code => write!(f, "line {line} {code}"),
            },
            PieceRefusal::Fault { offset, code } => write!(f, "offset {offset} {code}"),
            PieceRefusal::Long { size } => write!(f, "Long {size}"),
            PieceRefusal::Memory => write!(f, "out of memory"),
            PieceRefusal::Room { size } => write!(f, "size {size}"),
        }
    }
}

impl Error for PieceRefusal {}

impl From<Memory> for PieceRefusal {
    ghost use Rattle.std.specs.Prelude.{◌≡◌};
    ghost use Rattle.piece_calls.specs.declared.refusals.PieceRefusal.TheVariants.{Memory};

    ghost from_gives = { λ _ refusal. refusal ≡ Memory };

    fn from(_want: Memory) -> PieceRefusal {
        PieceRefusal::Memory
    }
}

impl From<TooShort> for PieceRefusal {
    ghost use Rattle.std.specs.Prelude.{◌≡◌};
    ghost use Rattle.piece_calls.specs.declared.refusals.PieceRefusal.TheVariants.{Room};

    ghost from_gives = { λ short refusal. refusal ≡ Room short.size };

    fn from(short: TooShort) -> PieceRefusal {
        PieceRefusal::Room { size: short.size }
    }
}

impl From<ContextFault> for PieceRefusal {
    ghost use Rattle.std.specs.Prelude.{◌≡◌};
    ghost use Rattle.piece_calls.specs.Refusals.{uncarried};

    ghost from_gives = { λ fault refusal. refusal ≡ uncarried fault };

    fn from(fault: ContextFault) -> PieceRefusal {
        match fault {
            ContextFault::At { offset, code } => PieceRefusal::Fault { offset, code },
            ContextFault::Memory => PieceRefusal::Memory,
        }
    }
}

impl From<CarryCode> for PieceCode {
    ghost use Rattle.std.specs.Prelude.{◌≡◌};
    ghost use Rattle.piece_calls.specs.Refusals.{line_code};

    ghost from_gives = { λ code own. own ≡ line_code code };

    fn from(code: CarryCode) -> PieceCode {
        match code {
            CarryCode::Form => PieceCode::Form,
            CarryCode::PieceRange => PieceCode::PieceRange,
            CarryCode::BadBase64 => PieceCode::BadBase64,
            CarryCode::OtherCount => PieceCode::OtherCount,
            CarryCode::Clash => PieceCode::Clash,
        }
    }
}

impl From<CarryFault> for PieceRefusal {
    ghost use Rattle.std.specs.Prelude.{◌≡◌};
    ghost use Rattle.piece_calls.specs.Refusals.{uncollected};

    ghost from_gives = { λ fault refusal. refusal ≡ uncollected fault };

    fn from(fault: CarryFault) -> PieceRefusal {
        match fault {
            CarryFault::At { line, code } => PieceRefusal::Pieces {
                line,
                code: PieceCode::from(code),
            },
            CarryFault::NoLine => PieceRefusal::Pieces {
                line: 0,
                code: PieceCode::NoLine,
            },
            CarryFault::Missing { piece } => PieceRefusal::Pieces {
                line: piece,
                code: PieceCode::Missing,
            },
            CarryFault::TooManyBytes => PieceRefusal::Pieces {
                line: 0,
                code: PieceCode::TooManyBytes,
            },
            CarryFault::Memory => PieceRefusal::Memory,
        }
    }
}
