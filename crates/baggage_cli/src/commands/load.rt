//! The command `load`: a graph that is made here is run.

ghost use Rattle.std.specs.Prelude.{◌≡◌, ℕ, ◌<◌, ◌≤◌, List, ◌++◌, length, IfOk};
ghost use Rattle.trace_model.specs.Graphs.{IsOfTable, IsTypedContext};
ghost use Rattle.trace_model.specs.Runs.{list_at};
ghost use Rattle.graph_lines.specs.declared.TheConstants.{ROUNDS_MAX};
ghost use Rattle.graph_report.specs.Reports.{IsReport};
ghost use Rattle.graph_text.specs.Reading.{IsGraphOf};
ghost use Rattle.load_maker.specs.Loads.{load_table, load_text};
ghost use Rattle.baggage_cli.specs.Load as spec;
ghost use Rattle.baggage_cli.specs.Load.{LoadGives};
ghost use Rattle.baggage_cli.specs.Outcomes.{outcome_of};

use crate::refusals::Refusal;
use atom_list::Context;
use field_table::Table;
use graph_report::report;
use graph_text::laws::texts_have_one_graph;
use graph_text::{GraphFault, read_graph};
use load_maker::laws::loads_are_accepted;
use load_maker::make_load;
use outside::{Gate, Memory};
use par_ranks::run_ranks;
use recorded_graph::Graph;
use std::alloc::Global;
use std::thread::Threads;

/// The graph of the text of a load.
fn load_graph(alloc: Global, table: &Table, text: &[u8], rounds: u32) -> Result<Graph, Memory>
    requires some { 1 ≤ rounds }
    requires few { rounds ≤ ROUNDS_MAX }
    requires table { table.now ≡ load_table }
    requires text { text.now ≡ load_text rounds }
    ensures graph { IfOk result (IsGraphOf load_table (load_text rounds)) }
    ensures table { IfOk result (IsOfTable table.now) }
{
    // The proof learns here that the text says a graph, and so has no fault.
    loads_are_accepted();
    texts_have_one_graph();
    let _ = table.nodes();
    match read_graph(alloc, table, text) {
        Ok(graph) => Ok(graph),
        Err(GraphFault::Memory) => Err(Memory),
        Err(GraphFault::At { .. }) => unreachable!(),
        Err(GraphFault::Bytes { .. }) => unreachable!(),
        Err(GraphFault::IllTyped { .. }) => unreachable!(),
    }
}

/// The lines before the report.
fn load_heading(alloc: Global, rounds: u32) -> Result<Vec<u8>, Memory>
    requires { rounds ≤ ROUNDS_MAX }
    ensures { IfOk result (λ lines. lines.items ≡ spec.load_heading rounds) }
{
    let steps = 42 * rounds + 1;
    Ok(format!(in alloc; "load {rounds}\nsteps {steps}\n")?.into_bytes())
}

/// The output of a load whose steps have these lists: the heading, and the report of the last step.
fn load_output(
    alloc: Global,
    rounds: u32,
    table: &Table,
    graph: &Graph,
    lists: &[Context],
) -> Result<Vec<u8>, Memory>
    requires few { rounds ≤ ROUNDS_MAX }
    requires as_many { length lists.now ≡ length graph.now.steps }
    requires typed { (n : ℕ) → n < length lists.now
        → IsTypedContext table.now (list_at lists.now n) }
    ensures { IfOk result (λ output. (text : List ℕ) × IsReport table.now graph.now lists.now text
        × (output.items ≡ spec.load_heading rounds ++ text)) }
{
    let mut output = load_heading(alloc, rounds)?;
    let report = report(alloc, table, graph, lists)?;
    output.extend_from_slice(report.as_slice())?;
    Ok(output)
}

/// Runs the load of `rounds` rounds, and answers how many rounds and steps there are, and the
/// report of the last step. The steps pass the gate before they are run.
pub(crate) fn load<R: Threads + Sync, G: Gate>(
    rt: &R,
    alloc: Global,
    gate: &G,
    rounds: u32,
) -> Result<Vec<u8>, Refusal>
    requires some { 1 ≤ rounds }
    requires few { rounds ≤ ROUNDS_MAX }
    ensures { LoadGives rounds (outcome_of result) }
{
    let (table, text) = make_load(alloc, rounds)?;
    let graph = load_graph(alloc, &table, text.as_slice(), rounds)?;
    let lists = run_ranks(rt, alloc, gate, &table, &graph)?;
    Ok(load_output(alloc, rounds, &table, &graph, lists.as_slice())?)
}
