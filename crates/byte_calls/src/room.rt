//! The buffer that a caller hands in.

ghost use Rattle.std.specs.Prelude.{◌≡◌, MatchResult};
ghost use Rattle.byte_forward.specs.Room.{HoldsBytes, IsTooShortFor};
ghost use Rattle.byte_calls.specs.Room.{WritesList};

use crate::refusals::Refusal;
use atom_list::AtomList;
use std::alloc::Global;
use std::error::Error;
use std::fmt;
use wire_bytes::{Form, size, write};

/// The buffer is shorter than what is to be written, which has `size` bytes.
#[derive(Clone, Copy, Debug, PartialEq, Eq)]
pub struct TooShort {
    pub size: usize,
}

impl fmt::Display for TooShort {
    ghost use Rattle.std.specs.Prelude.{Some};
    ghost use Rattle.byte_forward.specs.FaultTexts.{size_text};

    ghost output = { λ short. Some (size_text short.size) };

    fn fmt<W: fmt::Write>(&self, f: &mut fmt::Formatter<W>) -> fmt::Result {
        write!(f, "size {}", self.size)
    }
}

impl Error for TooShort {}

/// Writes bytes at the beginning of the buffer, and answers how many they are. The rest of the
/// buffer stays. Where the buffer is shorter than they are, all of it stays.
pub fn write_front(bytes: &[u8], room: &mut [u8]) -> Result<usize, TooShort>
    ensures { MatchResult result
        (λ size. HoldsBytes bytes.now size room.old room.new)
        (λ short. IsTooShortFor bytes.now short.size room.old room.new) }
{
    let size = bytes.len();
    if room.len() < size {
        return Err(TooShort { size });
    }
    room[..size].copy_from_slice(bytes);
    Ok(size)
}

/// Writes a list at the beginning of the buffer, in the form that is asked for, and answers how
/// many bytes it has. The rest of the buffer stays. It takes no memory where the buffer is too
/// short, nor where the bytes are in the list's buffer.
pub fn write_into(
    alloc: Global,
    form: Form,
    list: &AtomList,
    room: &mut [u8],
) -> Result<usize, Refusal>
    ensures { WritesList form (λ written. written ≡ list.now)
        (λ _ _ _. ⊥) room.old room.new result }
{
    // For the cast below: the bytes of a list are no more than a buffer may have.
    let _count = list.len();
    let size = size(form, list);
    if (room.len() as u128) < size {
        return Err(Refusal::Room {
            size: size as usize,
        });
    }
    match list.framed() {
        // There is nothing before the frames.
        Some(bytes) if bytes.len() as u128 == size => Ok(write_front(bytes, room)?),
        _ => Ok(write_front(&write(alloc, form, list)?, room)?),
    }
}
