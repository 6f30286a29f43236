//! Why a call wrote nothing.

use crate::room::TooShort;
use byte_forward::ByteRefusal;
use outside::Memory;
use std::error::Error;
use std::fmt;
use wire_bytes::ByteCode;

/// Why a call wrote nothing into the buffer that it was handed. The first of these counts, except
/// out of memory, which may come before any of the others.
#[derive(Clone, Copy, Debug, PartialEq, Eq)]
pub enum Refusal {
    /// The first of the inputs that aren't the bytes of a context is that at place `context`, from
    /// 0 on: its first fault, after `offset` bytes of it.
    Fault {
        context: usize,
        offset: usize,
        code: ByteCode,
    },
    /// There is no memory for what was read or is to be written.
    Memory,
    /// The buffer is shorter than what is to be written, which has `size` bytes.
    Room {
        size: usize,
    },
}

impl fmt::Display for Refusal {
    ghost use Rattle.std.specs.Prelude.{Some};
    ghost use Rattle.byte_calls.specs.FaultTexts.{refusal_text};

    ghost output = { λ fault. Some (refusal_text fault) };

    fn fmt<W: fmt::Write>(&self, f: &mut fmt::Formatter<W>) -> fmt::Result {
        match self {
            Refusal::Fault {
                context,
                offset,
                code,
            } => write!(f, "context {context} offset {offset} {code}"),
            Refusal::Memory => write!(f, "out of memory"),
            Refusal::Room { size } => write!(f, "size {size}"),
        }
    }
}

impl Error for Refusal {}

impl From<Memory> for Refusal {
    ghost use Rattle.std.specs.Prelude.{◌≡◌};
    ghost use Rattle.byte_calls.specs.declared.refusals.Refusal.TheVariants.{Memory};

    ghost from_gives = { λ _ refusal. refusal ≡ Memory };

    fn from(_want: Memory) -> Refusal {
        Refusal::Memory
    }
}

impl From<TooShort> for Refusal {
    ghost use Rattle.std.specs.Prelude.{◌≡◌};
    ghost use Rattle.byte_calls.specs.declared.refusals.Refusal.TheVariants.{Room};

    ghost from_gives = { λ short refusal. refusal ≡ Room short.size };

    fn from(short: TooShort) -> Refusal {
        Refusal::Room { size: short.size }
    }
}

impl From<ByteRefusal> for Refusal {
    ghost use Rattle.byte_calls.specs.Refusals.{SaysRefusal};

    ghost from_gives = { SaysRefusal };

    fn from(refusal: ByteRefusal) -> Refusal {
        match refusal {
            ByteRefusal::Fault {
                context,
                offset,
                code,
            } => Refusal::Fault {
                context,
                offset,
                code,
            },
            ByteRefusal::Room { size } => Refusal::Room { size },
        }
    }
}
