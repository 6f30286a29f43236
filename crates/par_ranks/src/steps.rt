//! Steps that are run one after another.

ghost use Rattle.std.specs.Prelude.{◌≡◌, ◌<◌, length, All, IfOk, OnOk};
ghost use Rattle.trace_model.specs.Graphs.{IsOfTable};
ghost use Rattle.par_ranks.specs.Rows.{IsGiven, AreIndependent, AreMade, IsRowRun};

use atom_list::Context;
use fan_in::{Alone, Beside, Merge};
use field_table::Table;
use outside::{Gate, Memory};
use recorded_graph::Graph;
use std::alloc::Global;
use std::thread::Threads;
use step_rules::run_step_by;

/// What the run of a graph is handed: threads, memory, the gate that each step passes, and the
/// graph with its table.
#[derive_where(Clone, Copy)]
pub(crate) struct Run<'a, R, G> {
    pub(crate) rt: &'a R,
    pub(crate) alloc: Global,
    pub(crate) gate: &'a G,
    pub(crate) table: &'a Table,
    pub(crate) graph: &'a Graph,
}

/// The list of a step, from those of its parents, which are at the places of their numbers.
fn run_one<M: Merge, R, G: Gate>(
    merger: &M,
    run: &Run<R, G>,
    lists: &[Context],
    step: usize,
) -> Result<Context, Memory>
    requires ready { M.ready merger.now }
    requires table { IsOfTable run.now.table.now run.now.graph.now }
    requires lists { length lists.now ≡ length run.now.graph.now.steps }
    requires step { step < length run.now.graph.now.steps }
    ensures { IfOk result (IsGiven run.now.table.now run.now.graph.now lists.now step) }
{
    let graph = run.graph;
    // The proof learns here that each step names only earlier ones as its parents.
    graph.known();
    let parents = graph.step(step).act.parents();
    run.gate.enter(step);
    run_step_by(merger, run.alloc, run.table, graph, step, lists, parents)
}

/// Runs the steps of a row in turn. Their joins of many parents are run in several threads.
pub(crate) fn run_in_turn<R: Threads + Sync, G: Gate>(
    run: &Run<R, G>,
    lists: &mut Vec<Context>,
    row: &[usize],
) -> Result<(), Memory>
    requires table { IsOfTable run.now.table.now run.now.graph.now }
    requires lists { length lists.old.items ≡ length run.now.graph.now.steps }
    requires row { AreIndependent run.now.graph.now row.now }
    ensures { OnOk result
        (IsRowRun run.now.table.now run.now.graph.now row.now lists.old.items lists.new.items) }
{
    for step in row {
        let list = run_one(&Beside(run.rt), run, lists.as_slice(), *step)?;
        lists[*step] = list;
    }
    Ok(())
}

/// The lists of some steps, in their order.
pub(crate) fn run_chunk<R, G: Gate>(
    run: &Run<R, G>,
    lists: &[Context],
    steps: &[usize],
) -> Result<Vec<Context>, Memory>
    requires table { IsOfTable run.now.table.now run.now.graph.now }
    requires lists { length lists.now ≡ length run.now.graph.now.steps }
    requires steps { All (λ step. step < length run.now.graph.now.steps) steps.now }
    ensures { IfOk result
        (λ made. AreMade run.now.table.now run.now.graph.now lists.now steps.now made.items) }
{
    let mut made = Vec::with_capacity(run.alloc, steps.len())?;
    for step in steps {
        let list = run_one(&Alone, run, lists, *step)?;
        made.push(list)?;
    }
    Ok(made)
}
