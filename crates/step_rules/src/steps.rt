//! The list of a step.

ghost use Rattle.std.specs.Prelude.{◌<◌, length, map, IfOk};
ghost use Rattle.std.specs.List.{AllByRecursion};
ghost use Rattle.trace_model.specs.Graphs.{Step, HasStep, parents_of, form_at, view_at, IsOfTable, IsTypedContext};
ghost use Rattle.trace_model.specs.Runs.{list_at, Gives};
ghost use Rattle.step_rules.specs.Parents.{ArePlacesOf};

use crate::acts::give;
use atom_list::Context;
use fan_in::{Alone, Beside, Merge};
use field_table::Table;
use outside::Memory;
use recorded_graph::Graph;
use std::alloc::Global;
use std::thread::Threads;
use trace_model::laws::steps_give_contexts;

/// The list of a step, from the lists of its parents. These are among the lists of the pool, at one
/// place for each parent, in the order in which the step names its parents. The merger merges the
/// lists of a join.
pub fn run_step_by<M: Merge>(
    merger: &M,
    alloc: Global,
    table: &Table,
    graph: &Graph,
    step: usize,
    pool: &[Context],
    places: &[usize],
) -> Result<Context, Memory>
    requires ready { M.ready merger.now }
    requires step { step < length graph.now.steps }
    requires table { IsOfTable table.now graph.now }
    requires places { (own : Step) → HasStep graph.now step own
        → ArePlacesOf (parents_of own.act) pool.now places.now }
    ensures gives { IfOk result (λ list. (own : Step) → HasStep graph.now step own →
        Gives table.now (form_at graph.now own.service) (view_at graph.now own.service) own.act
        (map (list_at pool.now) places.now) list) }
    ensures typed { AllByRecursion (IsTypedContext table.now) (map (list_at pool.now) places.now)
        → IfOk result (IsTypedContext table.now) }
{
    // The proof learns here that the graph is sound, that the fields make a table, and what steps
    // make of typed contexts.
    graph.known();
    let _ = table.nodes();
    steps_give_contexts();
    let own = graph.step(step);
    let service = graph.service(own.service);
    give(merger, alloc, table, service, &own.act, pool, places)
}

/// The list of a step, as [`run_step_by`] gives it, where all is done on one thread.
pub fn run_step_alone(
    alloc: Global,
    table: &Table,
    graph: &Graph,
    step: usize,
    pool: &[Context],
    places: &[usize],
) -> Result<Context, Memory>
    requires step { step < length graph.now.steps }
    requires table { IsOfTable table.now graph.now }
    requires places { (own : Step) → HasStep graph.now step own
        → ArePlacesOf (parents_of own.act) pool.now places.now }
    ensures gives { IfOk result (λ list. (own : Step) → HasStep graph.now step own →
        Gives table.now (form_at graph.now own.service) (view_at graph.now own.service) own.act
        (map (list_at pool.now) places.now) list) }
    ensures typed { AllByRecursion (IsTypedContext table.now) (map (list_at pool.now) places.now)
        → IfOk result (IsTypedContext table.now) }
{
    run_step_by(&Alone, alloc, table, graph, step, pool, places)
}

/// The list of a step, as [`run_step_by`] gives it, where the lists of a join of 64 parents or more
/// are merged in several threads.
pub fn run_step<R: Threads + Sync>(
    rt: &R,
    alloc: Global,
    table: &Table,
    graph: &Graph,
    step: usize,
    pool: &[Context],
    places: &[usize],
) -> Result<Context, Memory>
    requires step { step < length graph.now.steps }
    requires table { IsOfTable table.now graph.now }
    requires places { (own : Step) → HasStep graph.now step own
        → ArePlacesOf (parents_of own.act) pool.now places.now }
    ensures gives { IfOk result (λ list. (own : Step) → HasStep graph.now step own →
        Gives table.now (form_at graph.now own.service) (view_at graph.now own.service) own.act
        (map (list_at pool.now) places.now) list) }
    ensures typed { AllByRecursion (IsTypedContext table.now) (map (list_at pool.now) places.now)
        → IfOk result (IsTypedContext table.now) }
{
    run_step_by(&Beside(rt), alloc, table, graph, step, pool, places)
}
