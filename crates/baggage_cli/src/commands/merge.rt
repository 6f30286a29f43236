//! The command `merge`: the contexts of all lines are merged.

ghost use Rattle.std.specs.Prelude.{◌≡◌, ◌⊎◌, IfOk, IfErr};
ghost use Rattle.text_lines.specs.Lines.{lines_of};
ghost use Rattle.baggage_cli.specs.Outcomes.{outcome_of, OrMemory};
ghost use Rattle.baggage_cli.specs.Reading.{RefusesLines, ReadsAll, Within};
ghost use Rattle.baggage_cli.specs.Scene.{change};
ghost use Rattle.baggage_cli.specs.Merge.{merged_lines, AreContexts, MergesLines};

use crate::reading::{line_context, read_input};
use crate::refusals::{InputCode, InputFault, Notice, Refusal};
use atom_list::Context;
use lex_merge::merge_many;
use outside::Source;
use std::alloc::Global;
use text_lines::{hex_line, lines_of};
use wire_bytes::{Form, write};

/// The most lines that are merged.
pub const LINES_MAX: usize = 4096;

/// The contexts of all lines of an input, and the widest of their forms.
fn read_contexts(alloc: Global, input: &[u8]) -> Result<(Form, Vec<Context>), Refusal>
    ensures ok { IfOk result (λ read. AreContexts (lines_of input.now) read.0 read.1.items) }
    ensures err { IfErr result (λ refusal.
        (refusal ≡ Refusal.Plain Notice.Memory)
        ⊎ RefusesLines merged_lines (lines_of input.now) refusal) }
{
    let mut widest = Form::One;
    let mut contexts = Vec::new(alloc);
    for line in lines_of(input) {
        if contexts.len() == LINES_MAX {
            return Err(Refusal::Input {
                line: line.number,
                fault: InputFault::Code(InputCode::TooManyLines),
            });
        }
        let (form, context) = line_context(alloc, &line)?;
        if let Form::Two = form {
            widest = Form::Two;
        }
        contexts.push(context)?;
    }
    Ok((widest, contexts))
}

/// The line of the merge of the contexts of an input's lines, in the widest of their forms.
fn merged_line(alloc: Global, input: &[u8]) -> Result<Vec<u8>, Refusal>
    ensures { OrMemory (MergesLines (lines_of input.now)) (outcome_of result) }
{
    let (form, contexts) = read_contexts(alloc, input)?;
    let merged = merge_many(alloc, contexts)?;
    let bytes = write(alloc, form, merged.list())?;
    Ok(hex_line(alloc, bytes.as_slice())?)
}

/// Reads the source to its end, and answers the line of the merge of its lines' contexts.
pub(crate) fn merge<S: Source>(alloc: Global, source: &mut S) -> Result<Vec<u8>, Refusal>
    ensures { ReadsAll (Within MergesLines)
        (change S.left S.faults source.old source.new) (outcome_of result) }
{
    let input = read_input(alloc, source)?;
    merged_line(alloc, input.as_slice())
}
