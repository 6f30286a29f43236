//! Certificates, as they are written.

ghost use Rattle.std.specs.Prelude.{◌≡◌, ◌<◌, ◌++◌, [], ◌∷◌, length, map, IfOk, OnOk};
ghost use Rattle.std.specs.List.{flat_map};
ghost use Rattle.context_model.specs.KeyedMerge.{keys_of};
ghost use Rattle.bag_model.specs.Readings.{PathsOf};
ghost use Rattle.bag_model.specs.Slots.{slots_of};
ghost use Rattle.bag_model.specs.Typed.{AreTyped};
ghost use Rattle.trace_model.specs.Graphs.{IsOfTable};
ghost use Rattle.trace_model.specs.Runs.{IsRun};
ghost use Rattle.write_proof.specs.Certificates.{AddsText, AddsValue, AddsWhy, IsCertificate, IsEndedAt};
ghost use Rattle.write_proof.specs.Entries as lines;
ghost use Rattle.write_proof.specs.Entries.{entry_line};
ghost use Rattle.write_proof.specs.Reaching.{pairs_of};
ghost use Rattle.write_proof.specs.Verdicts.{IsVerdictOf};

use crate::joins::known;
use crate::reaching::{Reach, reaching_steps};
use crate::used::steps_with_news;
use crate::verdicts::Verified;
use atom_list::Context;
use bag_decode::decode_slot;
use field_table::Table;
use itoa::Buffer;
use outside::Memory;
use recorded_graph::Graph;
use report_text::put_value;
use std::alloc::Global;

/// Appends the line of the step and of the slot's path.
fn put_why(
    alloc: Global,
    table: &Table,
    step: usize,
    slot: usize,
    into: &mut Vec<u8>,
) -> Result<(), Memory>
    requires { slot < length (slots_of table.now) }
    ensures { OnOk result (AddsWhy table.now step slot into.old.items into.new.items) }
{
    let path = table.name(alloc, slot)?;
    let mut digits = Buffer::new();
    into.extend_from_slice(b"why ")?;
    into.extend_from_slice(digits.format(step).as_bytes())?;
    into.push(b' ')?;
    into.extend_from_slice(path.as_str().as_bytes())?;
    into.push(b'\n')?;
    Ok(())
}

/// Appends the text of what a context says of a slot.
fn put_text(
    alloc: Global,
    table: &Table,
    context: &Context,
    slot: usize,
    into: &mut Vec<u8>,
) -> Result<(), Memory>
    requires typed { AreTyped table.now (PathsOf context.now) [] }
    requires slot { slot < length (slots_of table.now) }
    ensures { OnOk result (AddsText table.now context.now slot into.old.items into.new.items) }
{
    let value = decode_slot(alloc, table, context, slot)?;
    put_value(table.shape(slot), &value, into)
}

/// Appends the line `value` with the text of the slot's value.
fn put_value_line(
    alloc: Global,
    table: &Table,
    context: &Context,
    slot: usize,
    into: &mut Vec<u8>,
) -> Result<(), Memory>
    requires typed { AreTyped table.now (PathsOf context.now) [] }
    requires slot { slot < length (slots_of table.now) }
    ensures { OnOk result (AddsValue table.now context.now slot into.old.items into.new.items) }
{
    into.extend_from_slice(b"value ")?;
    put_text(alloc, table, context, slot, into)?;
    into.push(b'\n')?;
    Ok(())
}

/// Appends the line of a step that reaches.
fn put_reach(reach: Reach, into: &mut Vec<u8>) -> Result<(), Memory>
    ensures { OnOk result
        (into.new.items ≡ into.old.items ++ entry_line (lines.Reach reach.step reach.child)) }
{
    let mut digits = Buffer::new();
    into.extend_from_slice(b"reach ")?;
    into.extend_from_slice(digits.format(reach.step).as_bytes())?;
    into.push(b' ')?;
    into.extend_from_slice(digits.format(reach.child).as_bytes())?;
    into.push(b'\n')?;
    Ok(())
}

/// Appends the lines of the steps that reach.
fn put_reaching(reaching: &[Reach], into: &mut Vec<u8>) -> Result<(), Memory>
    ensures { OnOk result
        (into.new.items ≡ into.old.items
        ++ flat_map entry_line
        (map (λ pair. lines.Reach pair.0 pair.1) (pairs_of reaching.now))) }
{
    for reach in reaching {
        put_reach(*reach, into)?;
    }
    Ok(())
}

/// Appends the line of a step that is used.
fn put_use(step: usize, into: &mut Vec<u8>) -> Result<(), Memory>
    ensures { OnOk result (into.new.items ≡ into.old.items ++ entry_line (lines.Uses step)) }
{
    let mut digits = Buffer::new();
    into.extend_from_slice(b"uses ")?;
    into.extend_from_slice(digits.format(step).as_bytes())?;
    into.push(b'\n')?;
    Ok(())
}

/// Appends the lines of the steps that are used.
fn put_used(steps: &[usize], into: &mut Vec<u8>) -> Result<(), Memory>
    ensures { OnOk result
        (into.new.items ≡ into.old.items ++ flat_map entry_line (map lines.Uses steps.now)) }
{
    for step in steps {
        put_use(*step, into)?;
    }
    Ok(())
}

/// The steps that reach, and the last after them.
fn steps_on_way(alloc: Global, reaching: &[Reach], last: usize) -> Result<Vec<usize>, Memory>
    ensures { IfOk result (λ steps. steps.items ≡ keys_of (pairs_of reaching.now) ++ last ∷ []) }
{
    let mut steps = Vec::new(alloc);
    for reach in reaching {
        steps.push(reach.step)?;
    }
    steps.push(last)?;
    Ok(steps)
}

/// The certificate for the value of a slot in the context of a step: the step with the slot's path,
/// the value's text, the steps that reach the step, each with its least child on the way, and the
/// steps that are used.
///
/// Those are the writes and received contexts that, in order, said something that the used ones
/// before them didn't. What an early one said may be superseded by a later one, and they needn't be
/// the fewest.
///
/// The contexts are those of a run of the graph, and the slot is exact in that of the step. The
/// lines are those of `docs/FORMATS.md`, Certificates.
pub fn why(
    alloc: Global,
    table: &Table,
    graph: &Graph,
    lists: &[Context],
    step: usize,
    slot: usize,
) -> Result<Vec<u8>, Memory>
    requires table { IsOfTable table.now graph.now }
    requires run { IsRun table.now graph.now lists.now }
    requires step { step < length graph.now.steps }
    requires slot { slot < length (slots_of table.now) }
    requires ended { IsEndedAt table.now lists.now step slot }
    ensures certificate { IfOk result
        (λ text. IsCertificate table.now graph.now lists.now step slot text.items) }
    ensures verifies { IfOk result
        (λ text. IsVerdictOf table.now graph.now text.items Verified.Yes) }
{
    // The proof learns here that both are sound, and that the graph has no more steps than any has.
    known(table, graph);
    graph.known();
    let reaching = reaching_steps(alloc, graph, step)?;
    let way = steps_on_way(alloc, reaching.as_slice(), step)?;
    let used = steps_with_news(alloc, table, graph, slot, way.as_slice())?;
    let mut text = Vec::new(alloc);
    put_why(alloc, table, step, slot, &mut text)?;
    put_value_line(alloc, table, &lists[step], slot, &mut text)?;
    put_reaching(reaching.as_slice(), &mut text)?;
    put_used(used.as_slice(), &mut text)?;
    Ok(text)
}
