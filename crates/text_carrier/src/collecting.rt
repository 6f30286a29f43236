//! Bytes from the lines of their pieces.

ghost use Rattle.std.specs.Prelude.{◌≡◌, ◌≤◌, [], List, Ok, Err, length, map, IfOk, IfErr};
ghost use Rattle.std.specs.List.{All};
ghost use Rattle.text_lines.specs.Lines as spec;
ghost use Rattle.text_lines.specs.Readings.{AllSay};
ghost use Rattle.text_carrier.specs.Pieces.{Piece};
ghost use Rattle.text_carrier.specs.Rules.{piece_lines};
ghost use Rattle.text_carrier.specs.Collecting.{Collects};
ghost use Rattle.text_carrier.specs.Views.{Keeps, IsData, IsLineFault, IsJoinFault, all_bytes};

use crate::CARRIED_MAX;
use crate::data::append_data;
use crate::faults::CarryFault;
use crate::pieces::Pieces;
use std::alloc::Global;
use text_lines::lines_of;

/// The pieces that the lines of a text say.
fn read_lines(alloc: Global, text: &[u8]) -> Result<Pieces<'_>, CarryFault>
    ensures ok { IfOk result
        (λ kept. (said : List Piece) × AllSay piece_lines [] (spec.lines_of text.now) said
        × Keeps said kept) }
    ensures err { IfErr result (IsLineFault (spec.lines_of text.now)) }
{
    let mut pieces = Pieces::new(alloc);
    for line in lines_of(text) {
        if let Err(refusal) = pieces.add(alloc, line.text) {
            return Err(CarryFault::of_line(line.number, refusal));
        }
    }
    Ok(pieces)
}

/// The bytes of the texts, one after another.
fn join(alloc: Global, texts: &[&[u8]]) -> Result<Vec<u8>, CarryFault>
    requires { All IsData (map (λ text. text.now) texts.now) }
    ensures bytes { IfOk result
        (λ bytes. bytes.items ≡ all_bytes (map (λ text. text.now) texts.now)) }
    ensures few { IfOk result (λ bytes. length bytes.items ≤ CARRIED_MAX) }
    ensures err { IfErr result (IsJoinFault (map (λ text. text.now) texts.now)) }
{
    let mut bytes = Vec::new(alloc);
    for text in texts {
        append_data(text, &mut bytes)?;
        if CARRIED_MAX < bytes.len() {
            return Err(CarryFault::TooManyBytes);
        }
    }
    Ok(bytes)
}

/// The bytes of which a text has the lines of all pieces, or what is wrong with it.
///
/// The lines may be in any order, and each may be there more than once. They end at line feeds; a
/// carriage return before one is dropped, and empty lines and those that begin with `#` are
/// skipped. See `docs/FORMATS.md` for the rules in their order.
pub fn collect(alloc: Global, text: &[u8]) -> Result<Vec<u8>, CarryFault>
    ensures ok { IfOk result (λ bytes. Collects (spec.lines_of text.now) (Ok bytes.items)) }
    ensures err { IfErr result (λ fault. Collects (spec.lines_of text.now) (Err fault)) }
{
    let pieces = read_lines(alloc, text)?;
    let texts = pieces.in_order(alloc)?;
    join(alloc, texts.as_slice())
}
