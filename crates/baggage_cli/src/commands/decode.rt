//! The command `decode`: one line of a context is decoded under a table.

ghost use Rattle.std.specs.Prelude.{◌≡◌, ◌⊎◌, [], ◌∷◌, IfOk, IfErr};
ghost use Rattle.text_lines.specs.Lines.{lines_of};
ghost use Rattle.text_lines.specs.Readings.{AllSay};
ghost use Rattle.baggage_cli.specs.Outcomes.{outcome_of, OrMemory};
ghost use Rattle.baggage_cli.specs.Reading.{only_one, RefusesOne, RefusesLine, typed_lines};
ghost use Rattle.baggage_cli.specs.Decode.{DecodesLines};
ghost use Rattle.baggage_cli.specs.Scene.{change};
ghost use Rattle.baggage_cli.specs.Tables.{compiled};
ghost use Rattle.baggage_cli.specs.Work.{ReadsUnder};

use crate::reading::{end_lines, first_line, line_context, read_input};
use crate::refusals::{InputFault, Notice, Refusal};
use crate::tables::{Origin, obtain};
use atom_list::Context;
use bag_typed::check_typed;
use field_table::Table;
use outside::{Library, Source};
use report_text::block;
use std::alloc::Global;
use text_lines::{Line, lines_of};
use wire_bytes::{Form, offset};

/// The context that a line says, with the form of its bytes; it is typed under the table.
fn typed_context(alloc: Global, table: &Table, line: &Line<'_>) -> Result<(Form, Context), Refusal>
    ensures ok { IfOk result (λ said.
        (typed_lines table.now).says [] line.now.text.now said) }
    ensures err { IfErr result (λ refusal.
        RefusesLine (typed_lines table.now) (line.now.number, line.now.text.now) refusal) }
{
    let (form, context) = line_context(alloc, line)?;
    match check_typed(table, &context) {
        Ok(()) => Ok((form, context)),
        Err(place) => Err(Refusal::Input {
            line: line.number,
            fault: InputFault::IllTyped {
                offset: offset(form, context.list(), place),
            },
        }),
    }
}

/// The context of the one line of an input, with the form of its bytes; it is typed under the
/// table.
fn only_context(alloc: Global, table: &Table, input: &[u8]) -> Result<(Form, Context), Refusal>
    ensures ok { IfOk result (λ said.
        AllSay (only_one (typed_lines table.now)) [] (lines_of input.now) (said ∷ [])) }
    ensures err { IfErr result (λ refusal. (refusal ≡ Refusal.Plain Notice.Memory)
        ⊎ RefusesOne (typed_lines table.now) (lines_of input.now) refusal) }
{
    let mut lines = lines_of(input);
    let line = first_line(&mut lines)?;
    let said = typed_context(alloc, table, &line)?;
    end_lines(&mut lines)?;
    Ok(said)
}

/// The block of the context of an input's one line.
fn decoded_block(alloc: Global, table: &Table, input: &[u8]) -> Result<Vec<u8>, Refusal>
    ensures { OrMemory (DecodesLines table.now (lines_of input.now)) (outcome_of result) }
{
    let (form, context) = only_context(alloc, table, input)?;
    Ok(block(alloc, table, form, &context)?)
}

/// Takes the table of a bag of the definition whose root is this file, then reads the source to its
/// end, and answers the block of its one line's context. Where the table is refused the source
/// isn't read.
pub(crate) fn decode<L: Library, S: Source>(
    alloc: Global,
    library: &mut L,
    source: &mut S,
    file: &str,
    bag: &str,
) -> Result<Vec<u8>, Refusal>
    ensures { ReadsUnder (compiled file.now bag.now) DecodesLines
        (change L.files L.faults library.old library.new)
        (change L.asked L.faults library.old library.new)
        (change S.left S.faults source.old source.new) (outcome_of result) }
{
    let table = obtain(alloc, library, Origin::Bag { file, bag })?;
    let input = read_input(alloc, source)?;
    decoded_block(alloc, &table, input.as_slice())
}
