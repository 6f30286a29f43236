//! Runs of graphs.

ghost use Rattle.std.specs.Prelude.{ℕ, ◌<◌, length, IfOk};
ghost use Rattle.trace_model.specs.Graphs.{IsOfTable, IsTypedContext};
ghost use Rattle.trace_model.specs.Runs.{list_at, IsRun};
ghost use Rattle.trace_model.specs.Faithful.{IsFaithful};
ghost use Rattle.graph_runner.specs.Runs.{AlikeStepsAgree};

use atom_list::Context;
use field_table::Table;
use outside::{Gate, Memory, Open};
use recorded_graph::Graph;
use std::alloc::Global;
use step_rules::run_step_alone;
use trace_model::laws::{graphs_have_one_run, runs_are_faithful, same_writes_read_alike};

/// The lists of the steps, in their order.
fn lists_of<G: Gate>(
    alloc: Global,
    gate: &G,
    table: &Table,
    graph: &Graph,
) -> Result<Vec<Context>, Memory>
    requires { IsOfTable table.now graph.now }
    ensures { IfOk result (λ lists. IsRun table.now graph.now lists.items) }
{
    // The proof learns here that the graph is sound, that the fields make a table, and how a run
    // grows.
    graph.known();
    let _ = table.nodes();
    graphs_have_one_run();
    let mut lists = Vec::new(alloc);
    for number in 0..graph.steps() {
        let own = graph.step(number);
        let parents = own.act.parents();
        gate.enter(number);
        let list = run_step_alone(alloc, table, graph, number, lists.as_slice(), parents)?;
        lists.push(list)?;
    }
    Ok(lists)
}

/// Tells what the lists of a run say of the truth, and that they are typed contexts. It does
/// nothing.
pub fn tell_of_run(table: &Table, graph: &Graph, lists: &[Context])
    requires table { IsOfTable table.now graph.now }
    requires run { IsRun table.now graph.now lists.now }
    ensures faithful { (n : ℕ) → n < length graph.now.steps
        → IsFaithful table.now graph.now lists.now n }
    ensures alike { AlikeStepsAgree table.now graph.now lists.now }
    ensures typed { (n : ℕ) → n < length lists.now
        → IsTypedContext table.now (list_at lists.now n) }
{
    // The proof rests on these laws, and learns that the graph is sound and that the fields make a
    // table.
    graph.known();
    let _ = table.nodes();
    runs_are_faithful();
    same_writes_read_alike();
    let _ = lists;
}

/// The lists of all steps of a graph of a table, as [`run_all`] gives them. Each step passes the
/// gate, as the piece of its number, before it is run.
pub fn run_gated<G: Gate>(
    alloc: Global,
    gate: &G,
    table: &Table,
    graph: &Graph,
) -> Result<Vec<Context>, Memory>
    requires { IsOfTable table.now graph.now }
    ensures run { IfOk result (λ lists. IsRun table.now graph.now lists.items) }
    ensures faithful { IfOk result
        (λ lists. (n : ℕ) → n < length graph.now.steps
        → IsFaithful table.now graph.now lists.items n) }
    ensures alike { IfOk result (λ lists. AlikeStepsAgree table.now graph.now lists.items) }
    ensures typed { IfOk result
        (λ lists. (n : ℕ) → n < length lists.items
        → IsTypedContext table.now (list_at lists.items n)) }
{
    let lists = lists_of(alloc, gate, table, graph)?;
    tell_of_run(table, graph, lists.as_slice());
    Ok(lists)
}

/// The lists of all steps of a graph of a table, in the order of the steps.
///
/// Each list tells the truth of what was written and received on the way to its step, as far as it
/// isn't cut off. Steps that the same writes and received lists reach say the same of each slot
/// that is ended at both, and of all where nothing was cut.
pub fn run_all(alloc: Global, table: &Table, graph: &Graph) -> Result<Vec<Context>, Memory>
    requires { IsOfTable table.now graph.now }
    ensures run { IfOk result (λ lists. IsRun table.now graph.now lists.items) }
    ensures faithful { IfOk result
        (λ lists. (n : ℕ) → n < length graph.now.steps
        → IsFaithful table.now graph.now lists.items n) }
    ensures alike { IfOk result (λ lists. AlikeStepsAgree table.now graph.now lists.items) }
    ensures typed { IfOk result
        (λ lists. (n : ℕ) → n < length lists.items
        → IsTypedContext table.now (list_at lists.items n)) }
{
    run_gated(alloc, &Open, table, graph)
}
