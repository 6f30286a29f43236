//! The lines of the pieces of some bytes.

ghost use Rattle.std.specs.Prelude.{◌≡◌, ◌≤◌, ◌++◌, ◌∷◌, [], length, IfOk, OnOk, string_bytes};
ghost use Rattle.text_carrier.specs.Carrying.{carried_text};
ghost use Rattle.text_carrier.specs.Pieces.{line_in_piece_form, data_text};

use crate::{CARRIED_MAX, WIDTH_MAX, WIDTH_MIN};
use base64::engine::general_purpose::STANDARD;
use outside::Memory;
use std::alloc::Global;

/// Appends the text of a piece's bytes.
fn put_data(bytes: &[u8], into: &mut String) -> Result<(), Memory>
    ensures { OnOk result (string_bytes into.new ≡ string_bytes into.old ++ data_text bytes.now) }
{
    if bytes.is_empty() {
        into.push('-')?;
        return Ok(());
    }
    STANDARD.encode_string(bytes, into)?;
    Ok(())
}

/// Appends the line of a piece.
fn put_line(place: usize, count: usize, bytes: &[u8], into: &mut String) -> Result<(), Memory>
    ensures { OnOk result (string_bytes into.new
        ≡ string_bytes into.old
        ++ (line_in_piece_form place count (data_text bytes.now) ++ 10 ∷ [])) }
{
    write!(into, "p {place} {count} ")?;
    put_data(bytes, into)?;
    into.push('\n')?;
    Ok(())
}

/// The lines of the pieces of some bytes: `width` bytes each, and the last with the rest. No bytes
/// are one piece, whose text is `-`.
///
/// See `docs/FORMATS.md` for the form of a line. [`crate::collect`] reads them back, in any order.
pub fn carry(alloc: Global, bytes: &[u8], width: usize) -> Result<Vec<u8>, Memory>
    requires least { WIDTH_MIN ≤ width }
    requires most { width ≤ WIDTH_MAX }
    requires few { length bytes.now ≤ CARRIED_MAX }
    ensures { IfOk result (λ text. text.items ≡ carried_text width bytes.now) }
{
    let count = bytes.len().div_ceil(width).max(1);
    let mut text = String::new(alloc);
    for place in 0..count {
        let start = place * width;
        let end = bytes.len().min(start + width);
        put_line(place, count, &bytes[start..end], &mut text)?;
    }
    Ok(text.into_bytes())
}
