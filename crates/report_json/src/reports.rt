//! Reports of shown steps.

ghost use Rattle.std.specs.Prelude.{◌≡◌, ℕ, ◌<◌, length, IfOk, OnOk};
ghost use Rattle.trace_model.specs.Graphs.{IsTypedContext};
ghost use Rattle.trace_model.specs.Runs.{list_at};
ghost use Rattle.report_json.specs.JsonReports.{AddsStepObject, IsJsonReport};

use crate::steps::step_json;
use atom_list::Context;
use field_table::Table;
use outside::Memory;
use recorded_graph::Graph;
use report_text::put_comma;
use std::alloc::Global;

/// Appends the object of the step with this number.
fn put_step(
    alloc: Global,
    table: &Table,
    graph: &Graph,
    lists: &[Context],
    number: usize,
    into: &mut Vec<u8>,
) -> Result<(), Memory>
    requires step { number < length graph.now.steps }
    requires within { number < length lists.now }
    requires typed { IsTypedContext table.now (list_at lists.now number) }
    ensures { OnOk result
        (AddsStepObject table.now graph.now lists.now number into.old.items into.new.items) }
{
    let object = step_json(alloc, table, graph, lists, number)?;
    into.extend_from_slice(object.to_vec(alloc)?.as_slice())?;
    Ok(())
}

/// The report of a graph's shown steps as JSON: an array with an object for each of them in order,
/// as `serde_json` writes it without blanks. An object has the digits of the bytes of the step's
/// list in the form of its service, for each slot its name path, whether it is exact or partial and
/// the text of its value, and the number of the step.
pub fn report_json(
    alloc: Global,
    table: &Table,
    graph: &Graph,
    lists: &[Context],
) -> Result<Vec<u8>, Memory>
    requires as_many { length lists.now ≡ length graph.now.steps }
    requires typed { (n : ℕ) → n < length lists.now
        → IsTypedContext table.now (list_at lists.now n) }
    ensures { IfOk result (λ text. IsJsonReport table.now graph.now lists.now text.items) }
{
    // The proof learns here that only steps of the graph are shown.
    graph.known();
    let mut text = Vec::new(alloc);
    text.push(b'[')?;
    for (at, number) in graph.shows().iter().enumerate() {
        put_comma(at, &mut text)?;
        put_step(alloc, table, graph, lists, *number, &mut text)?;
    }
    text.push(b']')?;
    Ok(text)
}
