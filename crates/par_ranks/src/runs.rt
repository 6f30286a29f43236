//! Runs of graphs, turn by turn.

ghost use Rattle.std.specs.Prelude.{◌≡◌, ◌<◌, ℕ, length, IfOk};
ghost use Rattle.trace_model.specs.Graphs.{IsOfTable, IsTypedContext};
ghost use Rattle.trace_model.specs.Runs.{list_at, IsRun};
ghost use Rattle.trace_model.specs.Faithful.{IsFaithful};
ghost use Rattle.graph_runner.specs.Runs.{AlikeStepsAgree};
ghost use Rattle.par_ranks.specs.Turns.{IsPlan};

use crate::rows::run_row;
use crate::steps::Run;
use crate::turns::{are_worth_threads, rows_of, turns_of};
use atom_list::Context;
use field_table::Table;
use graph_runner::{run_gated, tell_of_run};
use outside::{Gate, Memory};
use recorded_graph::{Graph, Places};
use std::alloc::Global;
use std::thread::Threads;

/// `count` empty contexts.
fn empty_lists(alloc: Global, count: usize) -> Result<Vec<Context>, Memory>
    ensures { IfOk result (λ lists. length lists.items ≡ count) }
{
    let mut lists = Vec::with_capacity(alloc, count)?;
    for _ in 0..count {
        lists.push(Context::empty(alloc))?;
    }
    Ok(lists)
}

/// The lists of all steps, where the rows of steps are run one after another.
fn run_rows<R: Threads + Sync, G: Gate>(
    run: &Run<R, G>,
    rows: &[Places],
) -> Result<Vec<Context>, Memory>
    requires table { IsOfTable run.now.table.now run.now.graph.now }
    requires plan { IsPlan run.now.graph.now rows.now }
    ensures { IfOk result (λ lists. IsRun run.now.table.now run.now.graph.now lists.items) }
{
    let mut lists = empty_lists(run.alloc, run.graph.steps())?;
    for row in rows {
        run_row(run, &mut lists, row.as_slice())?;
    }
    Ok(lists)
}

/// The lists of all steps of a graph of a table, in the order of the steps: those that
/// [`run_all`](graph_runner::run_all) gives.
///
/// The steps of one rank don't need each other. They are run in several threads where there are 64
/// or more of them, or 8 or more whose parents have many atoms, and their joins of 64 parents or
/// more one after another, each in several threads. Each step passes the gate, as the piece of its
/// number, before it is run.
pub fn run_ranks<R: Threads + Sync, G: Gate>(
    rt: &R,
    alloc: Global,
    gate: &G,
    table: &Table,
    graph: &Graph,
) -> Result<Vec<Context>, Memory>
    requires { IsOfTable table.now graph.now }
    ensures run { IfOk result (λ lists. IsRun table.now graph.now lists.items) }
    ensures faithful { IfOk result
        (λ lists. (n : ℕ) → n < length graph.now.steps
        → IsFaithful table.now graph.now lists.items n) }
    ensures alike { IfOk result (λ lists. AlikeStepsAgree table.now graph.now lists.items) }
    ensures typed { IfOk result
        (λ lists. (n : ℕ) → n < length lists.items
        → IsTypedContext table.now (list_at lists.items n)) }
{
    // The proof learns here that each step names only earlier ones as its parents.
    graph.known();
    let turns = turns_of(alloc, graph)?;
    if !are_worth_threads(alloc, turns.as_slice())? {
        return run_gated(alloc, gate, table, graph);
    }
    let rows = rows_of(alloc, turns.as_slice())?;
    let run = Run {
        rt,
        alloc,
        gate,
        table,
        graph,
    };
    let lists = run_rows(&run, rows.as_slice())?;
    tell_of_run(table, graph, lists.as_slice());
    Ok(lists)
}
