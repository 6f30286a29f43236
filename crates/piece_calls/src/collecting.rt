//! A context's bytes, collected from the lines of their pieces.

ghost use Rattle.std.specs.Prelude.{IfOk, IfErr};
ghost use Rattle.piece_calls.specs.Collecting.{CollectsInto, IsCollected, IsUncollected};

use crate::refusals::PieceRefusal;
use byte_calls::write_front;
use std::alloc::Global;
use text_carrier::collect;
use wire_bytes::read_context;

/// The bytes of the context whose pieces the lines say.
fn collected_bytes(alloc: Global, lines: &[u8]) -> Result<Vec<u8>, PieceRefusal>
    ensures bytes { IfOk result (λ bytes. IsCollected lines.now bytes.items) }
    ensures refused { IfErr result (IsUncollected lines.now) }
{
    let bytes = collect(alloc, lines)?;
    let _context = read_context(alloc, &bytes)?;
    Ok(bytes)
}

/// Writes the bytes that lines of pieces say at the beginning of `room`, and answers how many they
/// are. They are those of a context, as they were carried, in whichever form.
///
/// The lines may be in any order, and each may be there more than once. They end at line feeds; a
/// carriage return before one is dropped, and empty lines and those that begin with `#` are
/// skipped. [`PieceRefusal`] has what may be wrong, in the order in which it is looked for; then
/// `room` stays.
pub fn collect_into(alloc: Global, lines: &[u8], room: &mut [u8]) -> Result<usize, PieceRefusal>
    ensures { CollectsInto lines.now room.old room.new result }
{
    let bytes = collected_bytes(alloc, lines)?;
    Ok(write_front(&bytes, room)?)
}
