//! Joins of what steps contribute.

ghost use Rattle.std.specs.Prelude.{ℕ, ◌<◌, length, IfOk};
ghost use Rattle.context_model.specs.Orders.{IsIn};
ghost use Rattle.bag_model.specs.Slots.{slots_of};
ghost use Rattle.bag_model.specs.Tables.{IsTable};
ghost use Rattle.bag_value.specs.Vals.{plain};
ghost use Rattle.trace_model.specs.Graphs.{IsGraph, IsOfTable};
ghost use Rattle.write_proof.specs.Joins.{IsJoinAt};

use crate::contributions::contributed_value;
use bag_decode::bottom_of;
use bag_value::Val;
use counter_type::Lattice;
use field_table::Table;
use outside::Memory;
use recorded_graph::Graph;
use std::alloc::Global;

/// Tells that the fields of a table are in order, and a graph is sound, as all are. It does
/// nothing.
pub(crate) fn known(table: &Table, graph: &Graph)
    ensures table { IsTable table.now }
    ensures graph { IsGraph graph.now }
{
    let _ = table.nodes();
    graph.known();
}

/// The join of what some steps contribute to a slot, by halves of halves, so that what a step says
/// is copied as often as the steps can be halved.
pub(crate) fn join_steps(
    alloc: Global,
    table: &Table,
    graph: &Graph,
    slot: usize,
    steps: &[usize],
) -> Result<Val, Memory>
    requires table { IsOfTable table.now graph.now }
    requires slot { slot < length (slots_of table.now) }
    requires steps { (step : ℕ) → IsIn step steps.now → step < length graph.now.steps }
    ensures { IfOk result (λ joined. IsJoinAt table.now graph.now slot steps.now (plain joined)) }
{
    // The proof learns here that the fields make a table and that the graph is sound.
    known(table, graph);
    match steps {
        [] => bottom_of(alloc, table.shape(slot)),
        [step] => contributed_value(alloc, table, graph, slot, *step),
        _ => {
            let (left, right) = steps.split_at(steps.len() / 2);
            let mut joined = join_steps(alloc, table, graph, slot, left)?;
            let other = join_steps(alloc, table, graph, slot, right)?;
            joined.join(&other)?;
            Ok(joined)
        }
    }
}
