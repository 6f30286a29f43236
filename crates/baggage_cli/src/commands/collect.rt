//! The command `collect`: a context is put together from lines of its pieces.

ghost use Rattle.text_lines.specs.Lines.{lines_of};
ghost use Rattle.baggage_cli.specs.Collect.{CollectsLines};
ghost use Rattle.baggage_cli.specs.Outcomes.{outcome_of, OrMemory};
ghost use Rattle.baggage_cli.specs.Reading.{ReadsAll, Within};
ghost use Rattle.baggage_cli.specs.Scene.{change};

use crate::reading::read_input;
use crate::refusals::{Refusal, misread};
use outside::Source;
use std::alloc::Global;
use text_lines::hex_line;
use wire_bytes::read_context;

/// The line of the context whose pieces an input's lines say. Its bytes are those that were
/// carried, as they are.
fn collected_line(alloc: Global, input: &[u8]) -> Result<Vec<u8>, Refusal>
    ensures { OrMemory (CollectsLines (lines_of input.now)) (outcome_of result) }
{
    let bytes = text_carrier::collect(alloc, input)?;
    match read_context(alloc, bytes.as_slice()) {
        Ok(_) => Ok(hex_line(alloc, bytes.as_slice())?),
        Err(fault) => Err(misread(0, fault)),
    }
}

/// Reads the source to its end, and answers the line of the context whose pieces its lines say.
pub(crate) fn collect<S: Source>(alloc: Global, source: &mut S) -> Result<Vec<u8>, Refusal>
    ensures { ReadsAll (Within CollectsLines)
        (change S.left S.faults source.old source.new) (outcome_of result) }
{
    let input = read_input(alloc, source)?;
    collected_line(alloc, input.as_slice())
}
