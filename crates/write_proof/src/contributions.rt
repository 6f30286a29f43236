//! What the steps of a graph contribute to a slot.

ghost use Rattle.std.specs.Prelude.{◌≡◌, ◌<◌, length, IfOk, MatchOption};
ghost use Rattle.bag_model.specs.Shapes as shapes;
ghost use Rattle.bag_model.specs.Slots.{slots_of};
ghost use Rattle.bag_model.specs.Values.{bottom};
ghost use Rattle.bag_value.specs.Vals.{plain};
ghost use Rattle.trace_model.specs.Graphs.{IsOfTable};
ghost use Rattle.write_proof.specs.Contributions.{ContributesAt, contributed};

use bag_decode::{bottom_of, decode_slot};
use bag_value::Val;
use counter_type::Lattice;
use field_table::Table;
use outside::Memory;
use recorded_graph::{Act, Graph};
use std::alloc::Global;

/// What a step contributes to a slot.
#[derive(Drop)]
pub(crate) enum Contribution<'a> {
    /// The bottom of the slot's shape.
    Nothing,
    /// What the step writes there.
    Written(&'a Val),
    /// What the context that the step receives says of the slot.
    Received(Val),
}

impl Contribution<'_> {
    /// The value, or none where it is nothing.
    pub(crate) fn value(&self) -> Option<&Val>
        ensures { MatchOption result
            ((shape : shapes.Shape) → contributed shape self.now ≡ bottom shape)
            (λ value. (shape : shapes.Shape) → contributed shape self.now ≡ plain value.now) }
    {
        match self {
            Contribution::Nothing => None,
            Contribution::Written(value) => Some(value),
            Contribution::Received(value) => Some(value),
        }
    }
}

/// What a step contributes to a slot. A write at the slot lends its value; nothing is copied.
pub(crate) fn contribution_of<'a>(
    alloc: Global,
    table: &Table,
    graph: &'a Graph,
    slot: usize,
    step: usize,
) -> Result<Contribution<'a>, Memory>
    requires table { IsOfTable table.now graph.now }
    requires slot { slot < length (slots_of table.now) }
    requires step { step < length graph.now.steps }
    ensures { IfOk result
        (λ own. ContributesAt table.now graph.now slot step (λ shape. contributed shape own)) }
{
    match &graph.step(step).act {
        Act::Recv(received) => {
            let value = decode_slot(alloc, table, received, slot)?;
            Ok(Contribution::Received(value))
        }
        Act::Set {
            parent: _,
            slot: own,
            write,
        } => {
            if *own == slot {
                Ok(Contribution::Written(write))
            } else {
                Ok(Contribution::Nothing)
            }
        }
        _ => Ok(Contribution::Nothing),
    }
}

/// The value that a step contributes to a slot.
pub(crate) fn contributed_value(
    alloc: Global,
    table: &Table,
    graph: &Graph,
    slot: usize,
    step: usize,
) -> Result<Val, Memory>
    requires table { IsOfTable table.now graph.now }
    requires slot { slot < length (slots_of table.now) }
    requires step { step < length graph.now.steps }
    ensures { IfOk result
        (λ own. ContributesAt table.now graph.now slot step (λ shape. plain own)) }
{
    match contribution_of(alloc, table, graph, slot, step)? {
        Contribution::Nothing => bottom_of(alloc, table.shape(slot)),
        Contribution::Written(value) => value.copy(),
        Contribution::Received(value) => Ok(value),
    }
}
