//! An input, and what its lines say.

ghost use Rattle.std.specs.Prelude.{◌≡◌, ◌≤◌, [], ◌∷◌, length, OnOk, IfOk, IfErr};
ghost use Rattle.baggage_cli.specs.Scene.{change};
ghost use Rattle.baggage_cli.specs.Carry.{byte_lines};
ghost use Rattle.baggage_cli.specs.Reading.{ReadsInput, HasNoLine, HasExcess, IsNoHex, RefusesLine, cut_lines, context_lines};
ghost use Rattle.text_carrier.specs.declared.TheConstants.{CARRIED_MAX};
ghost use Rattle.text_lines.specs.HexLines.{IsHexOf};
ghost use Rattle.text_lines.specs.Lines.{line_value};

use crate::refusals::{InputCode, InputFault, Notice, Refusal, misread};
use atom_list::{AtomList, Context};
use outside::{ReadFault, Source, read_all};
use std::alloc::Global;
use text_lines::{HexFault, INPUT_MAX, Line, Lines, hex_bytes};
use wire_bytes::{ContextFault, Form, form_of, read_context, read_context_owned, read_owned};

/// Reads the source to its end.
pub(crate) fn read_input<S: Source>(alloc: Global, source: &mut S) -> Result<Vec<u8>, Refusal>
    ensures { ReadsInput (change S.left S.faults source.old source.new) result }
{
    match read_all(alloc, source, INPUT_MAX) {
        Ok(input) => Ok(input),
        Err(ReadFault::TooLong) => Err(Refusal::of_input(InputCode::TooLong)),
        Err(ReadFault::Failed) => Err(Refusal::Plain(Notice::SourceFailed)),
        Err(ReadFault::Memory) => Err(Refusal::Plain(Notice::Memory)),
    }
}

/// Takes the first of the lines, where a command wants one.
pub(crate) fn first_line<'a>(lines: &mut Lines<'a>) -> Result<Line<'a>, Refusal>
    ensures ok { IfOk result (λ line. lines.old ≡ line_value line ∷ lines.new) }
    ensures err { IfErr result (HasNoLine lines.old) }
{
    match lines.next() {
        Some(line) => Ok(line),
        None => Err(Refusal::of_input(InputCode::NoLine)),
    }
}

/// Refuses a line after the one that a command wants.
pub(crate) fn end_lines(lines: &mut Lines<'_>) -> Result<(), Refusal>
    ensures ok { OnOk result (lines.old ≡ []) }
    ensures err { IfErr result (HasExcess lines.old) }
{
    match lines.next() {
        None => Ok(()),
        Some(second) => Err(Refusal::Input {
            line: second.number,
            fault: InputFault::Code(InputCode::Form),
        }),
    }
}

/// The bytes that a line says.
fn line_bytes(alloc: Global, line: &Line<'_>) -> Result<Vec<u8>, Refusal>
    ensures ok { IfOk result (λ bytes. IsHexOf bytes.items line.now.text.now) }
    ensures err { IfErr result (λ refusal. IsNoHex (line.now.number, line.now.text.now) refusal) }
{
    match hex_bytes(alloc, line.text) {
        Ok(bytes) => Ok(bytes),
        Err(HexFault::Bad(code)) => Err(Refusal::Input {
            line: line.number,
            fault: InputFault::Hex(code),
        }),
        Err(HexFault::Memory) => Err(Refusal::Plain(Notice::Memory)),
    }
}

/// The list that a line says, with the form of its bytes, which must be one in which a list can be
/// cut to the budget.
pub(crate) fn line_list(
    alloc: Global,
    line: &Line<'_>,
    budget: u64,
) -> Result<(Form, AtomList), Refusal>
    ensures ok { IfOk result (λ said. (cut_lines budget).says [] line.now.text.now said) }
    ensures err { IfErr result (λ refusal.
        RefusesLine (cut_lines budget) (line.now.number, line.now.text.now) refusal) }
{
    let bytes = line_bytes(alloc, line)?;
    let form = form_of(bytes.as_slice());
    if budget < form.least_budget() {
        return Err(Refusal::Input {
            line: line.number,
            fault: InputFault::Code(InputCode::BudgetRange),
        });
    }
    match read_owned(alloc, bytes) {
        Ok(list) => Ok((form, list)),
        Err(fault) => Err(misread(line.number, ContextFault::from(fault))),
    }
}

/// The bytes of the context that a line says, as they are there.
pub(crate) fn context_bytes(alloc: Global, line: &Line<'_>) -> Result<Vec<u8>, Refusal>
    ensures ok { IfOk result (λ bytes. byte_lines.says [] line.now.text.now bytes.items) }
    ensures few { IfOk result (λ bytes. length bytes.items ≤ CARRIED_MAX) }
    ensures err { IfErr result (λ refusal.
        RefusesLine byte_lines (line.now.number, line.now.text.now) refusal) }
{
    let bytes = line_bytes(alloc, line)?;
    match read_context(alloc, bytes.as_slice()) {
        Ok(_) => Ok(bytes),
        Err(fault) => Err(misread(line.number, fault)),
    }
}

/// The context that a line says, with the form of its bytes.
pub(crate) fn line_context(alloc: Global, line: &Line<'_>) -> Result<(Form, Context), Refusal>
    ensures ok { IfOk result (λ said. context_lines.says [] line.now.text.now said) }
    ensures err { IfErr result (λ refusal.
        RefusesLine context_lines (line.now.number, line.now.text.now) refusal) }
{
    let bytes = line_bytes(alloc, line)?;
    let form = form_of(bytes.as_slice());
    match read_context_owned(alloc, bytes) {
        Ok(context) => Ok((form, context)),
        Err(fault) => Err(misread(line.number, fault)),
    }
}
