//! Reports of shown steps.

ghost use Rattle.std.specs.Prelude.{◌≡◌, ℕ, ◌<◌, ◌++◌, length, IfOk, OnOk};
ghost use Rattle.trace_model.specs.Graphs.{IsTypedContext};
ghost use Rattle.trace_model.specs.Runs.{list_at};
ghost use Rattle.graph_report.specs.Reports.{AddsStep, IsReport};

use atom_list::Context;
use field_table::Table;
use itoa::Buffer;
use outside::Memory;
use recorded_graph::Graph;
use report_text::put_block;
use std::alloc::Global;

/// Appends the number of a step, and the block of its list in the form of the step's service.
fn put_step(
    alloc: Global,
    table: &Table,
    graph: &Graph,
    lists: &[Context],
    number: usize,
    into: &mut Vec<u8>,
) -> Result<(), Memory>
    requires step { number < length graph.now.steps }
    requires within { number < length lists.now }
    requires typed { IsTypedContext table.now (list_at lists.now number) }
    ensures { OnOk result
        (AddsStep table.now graph.now lists.now number into.old.items into.new.items) }
{
    // The proof learns here that the graph is sound.
    graph.known();
    let form = graph.service(graph.step(number).service).form;
    let mut digits = Buffer::new();
    into.extend_from_slice(b"step ")?;
    into.extend_from_slice(digits.format(number).as_bytes())?;
    into.push(b'\n')?;
    put_block(alloc, table, form, &lists[number], into)
}

/// The report of a graph's shown steps: for each of them in order its number and the block of its
/// list, in the form of the service where it is.
pub fn report(
    alloc: Global,
    table: &Table,
    graph: &Graph,
    lists: &[Context],
) -> Result<Vec<u8>, Memory>
    requires as_many { length lists.now ≡ length graph.now.steps }
    requires typed { (n : ℕ) → n < length lists.now
        → IsTypedContext table.now (list_at lists.now n) }
    ensures { IfOk result (λ text. IsReport table.now graph.now lists.now text.items) }
{
    // The proof learns here that only steps of the graph are shown.
    graph.known();
    let mut text = Vec::new(alloc);
    for number in graph.shows() {
        put_step(alloc, table, graph, lists, *number, &mut text)?;
    }
    Ok(text)
}
