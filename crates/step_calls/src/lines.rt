//! Lines that say writes.

ghost use Rattle.std.specs.Prelude.{◌≡◌, ◌≢◌, ◌++◌, [], ◌∷◌, ℕ, List, All, IfOk, IfErr, MatchOption};
ghost use Rattle.bag_model.specs.Encodings.{IsEncoding};
ghost use Rattle.bag_model.specs.Slots.{FindsSlot};
ghost use Rattle.bag_model.specs.SlotValues.{only};
ghost use Rattle.text_lines.specs.Readings.{AllSay};
ghost use Rattle.step_calls.specs.Lines.{Write as SaidWrite, SaysLineWrite, ends_path, IsOfPath, EndsPath, write_lines, lines_from_one, AreEncodings, IsRefusedLine};
ghost use Rattle.step_calls.specs.Refusals.{IsWriteRefusalOf};

use crate::inputs::push_context;
use crate::refusals::{StepRefusal, WriteCode};
use atom_list::Context;
use bag_encode::encode_slot;
use context_model::Form;
use field_table::Table;
use field_writes::read_write;
use outside::OrMemory;
use std::alloc::Global;
use text_lines::{cut_fed_line, without_feed};

/// Whether a path ends before this byte.
fn ends_path(byte: u8) -> bool
    ensures { result ≡ ends_path byte }
{
    matches!(byte, b' ' | b'\n')
}

/// The bytes of a line before its first space or line feed, and the rest of it.
fn split_path(line: &[u8]) -> (&[u8], &[u8])
    ensures same { line.now ≡ result.0.now ++ result.1.now }
    ensures path { All IsOfPath result.0.now }
    ensures end { EndsPath result.1.now }
{
    match line.iter().position(|byte| ends_path(*byte)) {
        Some(at) => line.split_at(at),
        None => (line, &[]),
    }
}

/// The text between a space and a line feed.
fn text_between(rest: &[u8]) -> Option<&[u8]>
    ensures { MatchOption result ((text : List ℕ) → rest.now ≢ 32 ∷ text ++ 10 ∷ [])
        (λ text. rest.now ≡ 32 ∷ text.now ++ 10 ∷ []) }
{
    let [b' ', fed @ ..] = rest else {
        return None;
    };
    without_feed(fed)
}

/// The slot with this name path.
fn slot_named(table: &Table, path: &[u8]) -> Option<usize>
    ensures { FindsSlot table.now path.now result }
{
    // The proof learns here that the fields make a table, whose names are texts.
    let _ = table.nodes();
    let Ok(path) = str::from_utf8(path) else {
        return None;
    };
    table.find(path)
}

/// The encoding of the write that a line says.
fn read_line(
    alloc: Global,
    form: Form,
    table: &Table,
    line: &[u8],
) -> Result<Context, OrMemory<WriteCode>>
    ensures ok { IfOk result
        (λ list. (write : SaidWrite) × SaysLineWrite form table.now line.now write
        × IsEncoding table.now (only table.now write.0 write.1) list) }
    ensures err { IfErr result (IsRefusedLine form table.now line.now) }
{
    // The proof learns here that the fields make a table, in which no two slots have one path.
    let _ = table.nodes();
    let (path, rest) = split_path(line);
    let Some(slot) = slot_named(table, path) else {
        return Err(OrMemory::Fault(WriteCode::NoField));
    };
    let Some(text) = text_between(rest) else {
        return Err(OrMemory::Fault(WriteCode::NoWrite));
    };
    let Some(value) = read_write(alloc, form, table.shape(slot), text)? else {
        return Err(OrMemory::Fault(WriteCode::NoWrite));
    };
    Ok(encode_slot(alloc, table, slot, &value)?)
}

/// The encodings of the writes that the lines of a text say, or what is wrong with its first bad
/// line. None is skipped.
pub(crate) fn read_writes(
    alloc: Global,
    form: Form,
    table: &Table,
    text: &[u8],
) -> Result<Vec<Context>, StepRefusal>
    ensures ok { IfOk result (λ lists. (said : List SaidWrite)
        × AllSay (write_lines form table.now) [] (lines_from_one text.now) said
        × AreEncodings table.now said lists.items) }
    ensures err { IfErr result (IsWriteRefusalOf form table.now text.now) }
{
    let mut lists = Vec::new(alloc);
    let mut rest = text;
    let mut number = 1;
    while let Some((line, behind)) = cut_fed_line(rest) {
        let list = match read_line(alloc, form, table, line) {
            Ok(list) => list,
            Err(refusal) => return Err(StepRefusal::of_line(number, refusal)),
        };
        push_context(&mut lists, list)?;
        rest = behind;
        number += 1;
    }
    Ok(lists)
}
