//! A context from its bytes, or their first fault.

ghost use Rattle.std.specs.Prelude.{◌≡◌, List, ℕ, IfOk, IfErr};
ghost use Rattle.context_model.specs.ContextFault.{IsContextOf, HasOneContext};
ghost use Rattle.wire_bytes.specs.Reading.{IsContextRefusalOf, ReadsAnyContext};

use crate::reading::{FrontList, WireCode, WireFault, read_front};
use crate::writing::frames_before;
use atom_list::{Context, ShapeFault};
use outside::Memory;
use std::alloc::Global;
use std::error::Error;
use std::fmt;

/// What is wrong where bytes cease to be those of a context. At one place the first of these
/// counts.
#[derive(Clone, Copy, Debug, PartialEq, Eq)]
pub enum ByteCode {
    /// The input ends inside the head or a length.
    CutLength,
    /// The number in the head isn't that of the bytes after it.
    BadCount,
    /// A length has more bytes than it needs.
    LongForm,
    /// A length is above the form's limit, [`crate::LENGTH_MAX`] or [`outside::ATOM_MAX`], or in
    /// form one a fourth byte of it would follow.
    AtomTooLong,
    /// Fewer bytes follow than a length says.
    CutBody,
    /// No kind of atom begins with an atom's first byte.
    BadPrefix,
    /// What follows the first byte of an indexed header isn't exactly one varint.
    BadIndex,
    /// The level of a header is more than one above that of the last header before it, or isn't 0
    /// where there is none.
    LevelJump,
    /// The path of an atom isn't greater than that of the atom before it.
    OutOfOrder,
}

/// Why bytes weren't read as a context.
#[derive(Clone, Copy, Debug, PartialEq, Eq)]
pub enum ContextFault {
    /// The head is wrong at `offset`, or the bytes from there on begin with no atom that is allowed
    /// there, and those between the head and there are the frames of a context.
    At { offset: usize, code: ByteCode },
    /// There is no memory for the context.
    Memory,
}

impl fmt::Display for ByteCode {
    ghost use Rattle.std.specs.Prelude.{Some};
    ghost use Rattle.context_model.specs.ByteCodes.{code_name};
    ghost use Rattle.wire_bytes.specs.Reading.{byte_code_of};

    ghost output = { λ code. Some (code_name (byte_code_of code)) };

    fn fmt<W: fmt::Write>(&self, f: &mut fmt::Formatter<W>) -> fmt::Result {
        match self {
            ByteCode::CutLength => write!(f, "CutLength"),
            ByteCode::BadCount => write!(f, "BadCount"),
            ByteCode::AtomTooLong => write!(f, "AtomTooLong"),
            ByteCode::LongForm => write!(f, "LongForm"),
            ByteCode::CutBody => write!(f, "CutBody"),
            ByteCode::BadPrefix => write!(f, "BadPrefix"),
            ByteCode::BadIndex => write!(f, "BadIndex"),
            ByteCode::LevelJump => write!(f, "LevelJump"),
            ByteCode::OutOfOrder => write!(f, "OutOfOrder"),
        }
    }
}

impl Error for ByteCode {}

impl fmt::Display for ContextFault {
    ghost use Rattle.std.specs.Prelude.{Some};
    ghost use Rattle.wire_bytes.specs.FaultTexts.{context_fault_text};

    ghost output = { λ fault. Some (context_fault_text fault) };

    fn fmt<W: fmt::Write>(&self, f: &mut fmt::Formatter<W>) -> fmt::Result {
        match self {
            ContextFault::At { offset, code } => write!(f, "offset {offset} {code}"),
            ContextFault::Memory => write!(f, "out of memory"),
        }
    }
}

impl Error for ContextFault {}

impl From<WireCode> for ByteCode {
    ghost use Rattle.std.specs.Prelude.{◌≡◌};
    ghost use Rattle.wire_bytes.specs.Reading.{code_of, byte_code_of};

    ghost from_gives = { λ wire code. byte_code_of code ≡ code_of wire };

    fn from(wire: WireCode) -> ByteCode {
        match wire {
            WireCode::CutLength => ByteCode::CutLength,
            WireCode::BadCount => ByteCode::BadCount,
            WireCode::AtomTooLong => ByteCode::AtomTooLong,
            WireCode::LongForm => ByteCode::LongForm,
            WireCode::CutBody => ByteCode::CutBody,
        }
    }
}

impl From<ShapeFault> for ByteCode {
    ghost use Rattle.std.specs.Prelude.{◌≡◌};
    ghost use Rattle.atom_list.specs.Contexts.{shape_fault_code_of};
    ghost use Rattle.wire_bytes.specs.Reading.{byte_code_of};

    ghost from_gives = { λ shape code. byte_code_of code ≡ shape_fault_code_of shape };

    fn from(shape: ShapeFault) -> ByteCode {
        match shape {
            ShapeFault::BadPrefix => ByteCode::BadPrefix,
            ShapeFault::BadIndex => ByteCode::BadIndex,
            ShapeFault::LevelJump => ByteCode::LevelJump,
            ShapeFault::OutOfOrder => ByteCode::OutOfOrder,
        }
    }
}

impl From<Memory> for ContextFault {
    ghost use Rattle.std.specs.Prelude.{◌≡◌};
    ghost use Rattle.wire_bytes.specs.declared.contexts.ContextFault.TheVariants.{Memory};

    ghost from_gives = { λ _ fault. fault ≡ Memory };

    fn from(_want: Memory) -> ContextFault {
        ContextFault::Memory
    }
}

impl From<WireFault> for ContextFault {
    ghost use Rattle.wire_bytes.specs.Reading.{SaysFault};

    ghost from_gives = { SaysFault };

    fn from(fault: WireFault) -> ContextFault {
        match fault {
            WireFault::At { offset, code } => ContextFault::At {
                offset,
                code: ByteCode::from(code),
            },
            WireFault::Memory => ContextFault::Memory,
        }
    }
}

/// The context whose bytes these are, in the form that they begin with. They become its buffer and
/// aren't copied. The refusal is the first fault: what is wrong with the head, at its number, or
/// where the longest prefix after it that is the frames of a context ends.
pub fn read_context_owned(alloc: Global, bytes: Vec<u8>) -> Result<Context, ContextFault>
    ensures found { IfOk result (λ context. IsContextOf context bytes.items) }
    ensures fault { IfErr result (IsContextRefusalOf bytes.items) }
    ensures only { ReadsAnyContext bytes.items result }
{
    let FrontList { form, list, fault } = read_front(alloc, bytes)?;
    let context = match Context::check(list) {
        Ok(context) => context,
        Err((shape, place, list)) => {
            return Err(ContextFault::At {
                offset: form.head_len() + frames_before(&list, place) as usize,
                code: ByteCode::from(shape),
            });
        }
    };
    match fault {
        None => Ok(context),
        Some((behind, wire)) => Err(ContextFault::At {
            offset: form.head_len() + behind,
            code: ByteCode::from(wire),
        }),
    }
}

/// The context whose bytes these are, as [`read_context_owned`] reads it from a copy of them.
pub fn read_context(alloc: Global, bytes: &[u8]) -> Result<Context, ContextFault>
    ensures found { IfOk result (λ context. IsContextOf context bytes.now) }
    ensures fault { IfErr result (IsContextRefusalOf bytes.now) }
    ensures only { ReadsAnyContext bytes.now result }
{
    let bytes = Vec::from_slice(alloc, bytes).map_err(|_| ContextFault::Memory)?;
    read_context_owned(alloc, bytes)
}

/// Bytes are those of at most one context, have at most one first fault, and never both.
pub fn reads_one_context()
    ensures { (bytes : List ℕ) → HasOneContext bytes }
{}
