//! The command `carry`: one line's context goes into lines of pieces.

ghost use Rattle.std.specs.Prelude.{◌≡◌, ◌⊎◌, ◌≤◌, [], ◌∷◌, length, IfOk, IfErr};
ghost use Rattle.text_carrier.specs.declared.TheConstants.{CARRIED_MAX, WIDTH_MAX, WIDTH_MIN};
ghost use Rattle.text_lines.specs.Lines.{lines_of};
ghost use Rattle.text_lines.specs.Readings.{AllSay};
ghost use Rattle.baggage_cli.specs.Carry.{byte_lines, CarriesLines};
ghost use Rattle.baggage_cli.specs.Outcomes.{outcome_of, OrMemory};
ghost use Rattle.baggage_cli.specs.Reading.{only_one, RefusesOne, ReadsAll, Within};
ghost use Rattle.baggage_cli.specs.Scene.{change};

use crate::reading::{context_bytes, end_lines, first_line, read_input};
use crate::refusals::{Notice, Refusal};
use outside::Source;
use std::alloc::Global;
use text_lines::lines_of;

/// The bytes of the context of the one line of an input.
fn only_bytes(alloc: Global, input: &[u8]) -> Result<Vec<u8>, Refusal>
    ensures ok { IfOk result (λ bytes.
        AllSay (only_one byte_lines) [] (lines_of input.now) (bytes.items ∷ [])) }
    ensures few { IfOk result (λ bytes. length bytes.items ≤ CARRIED_MAX) }
    ensures err { IfErr result (λ refusal.
        (refusal ≡ Refusal.Plain Notice.Memory)
        ⊎ RefusesOne byte_lines (lines_of input.now) refusal) }
{
    let mut lines = lines_of(input);
    let line = first_line(&mut lines)?;
    let bytes = context_bytes(alloc, &line)?;
    end_lines(&mut lines)?;
    Ok(bytes)
}

/// The lines of the pieces of the context of an input's one line.
fn carried_lines(alloc: Global, input: &[u8], width: u32) -> Result<Vec<u8>, Refusal>
    requires least { WIDTH_MIN ≤ width }
    requires most { width ≤ WIDTH_MAX }
    ensures { OrMemory (CarriesLines width (lines_of input.now)) (outcome_of result) }
{
    let bytes = only_bytes(alloc, input)?;
    Ok(text_carrier::carry(alloc, bytes.as_slice(), width as usize)?)
}

/// Reads the source to its end, and answers the lines of the pieces of its one line's context.
pub(crate) fn carry<S: Source>(
    alloc: Global,
    source: &mut S,
    width: u32,
) -> Result<Vec<u8>, Refusal>
    requires least { WIDTH_MIN ≤ width }
    requires most { width ≤ WIDTH_MAX }
    ensures { ReadsAll (Within (CarriesLines width))
        (change S.left S.faults source.old source.new) (outcome_of result) }
{
    let input = read_input(alloc, source)?;
    carried_lines(alloc, input.as_slice(), width)
}
