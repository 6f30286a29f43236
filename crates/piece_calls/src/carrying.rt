//! A context's bytes, carried.

ghost use Rattle.std.specs.Prelude.{◌≡◌, IfOk, IfErr};
ghost use Rattle.text_carrier.specs.Carrying.{carried_text};
ghost use Rattle.piece_calls.specs.Carrying.{CarriesInto, IsUncarried, MayCarry};

use crate::refusals::PieceRefusal;
use byte_calls::write_front;
use std::alloc::Global;
use text_carrier::{CARRIED_MAX, WIDTH_MAX, WIDTH_MIN, carry};
use wire_bytes::read_context;

/// The lines of the pieces of a context's bytes.
fn carried_lines(alloc: Global, context: &[u8], width: usize) -> Result<Vec<u8>, PieceRefusal>
    ensures may { IfOk result (λ _. MayCarry width context.now) }
    ensures text { IfOk result (λ text. text.items ≡ carried_text width context.now) }
    ensures refused { IfErr result (IsUncarried width context.now) }
{
    if width < WIDTH_MIN || WIDTH_MAX < width {
        return Err(PieceRefusal::Width);
    }
    let _context = read_context(alloc, context)?;
    let size = context.len();
    if CARRIED_MAX < size {
        return Err(PieceRefusal::Long { size });
    }
    Ok(carry(alloc, context, width)?)
}

/// Writes the lines of the pieces of a context's bytes at the beginning of `room`, and answers how
/// many bytes they have. The bytes are cut as they are, in whichever form, `width` bytes a piece
/// and the last with the rest.
///
/// A line is one of `docs/FORMATS.md`, and ends with a line feed. [`crate::collect_into`] reads
/// them back, in any order. [`PieceRefusal`] has what may be wrong, in the order in which it is
/// looked for; then `room` stays.
pub fn carry_into(
    alloc: Global,
    context: &[u8],
    width: usize,
    room: &mut [u8],
) -> Result<usize, PieceRefusal>
    ensures { CarriesInto width context.now room.old room.new result }
{
    let text = carried_lines(alloc, context, width)?;
    Ok(write_front(&text, room)?)
}
