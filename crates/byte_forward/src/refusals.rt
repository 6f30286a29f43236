//! Why a call wrote nothing.

use std::error::Error;
use std::fmt;
use wire_bytes::ByteCode;

/// Why a call wrote nothing into the buffer that it was handed. The first of these counts.
#[derive(Clone, Copy, Debug, PartialEq, Eq)]
pub enum ByteRefusal {
    /// The first of the inputs that aren't the bytes of a context is that at place `context`, from
    /// 0 on: its first fault, after `offset` bytes of it.
    Fault {
        context: usize,
        offset: usize,
        code: ByteCode,
    },
    /// The buffer is shorter than what is to be written, which has `size` bytes.
    Room {
        size: usize,
    },
}

impl fmt::Display for ByteRefusal {
    ghost use Rattle.std.specs.Prelude.{Some};
    ghost use Rattle.byte_forward.specs.FaultTexts.{byte_refusal_text};

    ghost output = { λ refusal. Some (byte_refusal_text refusal) };

    fn fmt<W: fmt::Write>(&self, f: &mut fmt::Formatter<W>) -> fmt::Result {
        match self {
            ByteRefusal::Fault {
                context,
                offset,
                code,
            } => write!(f, "context {context} offset {offset} {code}"),
            ByteRefusal::Room { size } => write!(f, "size {size}"),
        }
    }
}

impl Error for ByteRefusal {}
