//! The first node of a graph that reaches itself.

ghost use Rattle.std.specs.Prelude.{◌≡◌, ℕ, ◌<◌, ◌↔◌, IfOk, IsTrue, length, slice_index};
ghost use Rattle.topological_order.specs.Graphs.{edge_lists_of, IsClosed, HasEdge, LeadsTo};
ghost use Rattle.topological_order.specs.Components.{IsNumbered};
ghost use Rattle.topological_order.specs.Cycles.{Stays, IsFirstInCycle};

use crate::walk::Walk;
use outside::Memory;
use std::alloc::Global;

/// Whether a node has an edge to a node of its own component.
fn stays(graph: &[Vec<usize>], numbers: &[usize], node: usize) -> bool
    requires numbers { IsNumbered (edge_lists_of graph.now) numbers.now }
    requires closed { IsClosed (edge_lists_of graph.now) }
    requires node { node < length graph.now }
    ensures { Stays (edge_lists_of graph.now) numbers.now node result }
{
    for to in &graph[node] {
        if numbers[*to] == numbers[node] {
            return true;
        }
    }
    false
}

/// Whether a node reaches itself.
fn reaches_itself(alloc: Global, graph: &[Vec<usize>], node: usize) -> Result<bool, Memory>
    requires closed { IsClosed (edge_lists_of graph.now) }
    requires node { node < length graph.now }
    ensures { IfOk result (λ yes. IsTrue yes ↔ LeadsTo (edge_lists_of graph.now) node node) }
{
    let mut walk = Walk::new(alloc, graph)?;
    for next in &graph[node] {
        walk.walk_from(*next)?;
    }
    Ok(!walk.is_new(node))
}

/// The first node that reaches itself, if one does. In a component of several nodes each does, so
/// that one walk is enough to see it of a node that stays in its component.
pub(crate) fn first_cyclic(
    alloc: Global,
    graph: &[Vec<usize>],
    numbers: &[usize],
) -> Result<Option<usize>, Memory>
    requires closed { IsClosed (edge_lists_of graph.now) }
    requires numbers { IsNumbered (edge_lists_of graph.now) numbers.now }
    ensures { IfOk result (IsFirstInCycle (edge_lists_of graph.now)) }
{
    for node in 0..graph.len() {
        if stays(graph, numbers, node) && reaches_itself(alloc, graph, node)? {
            return Ok(Some(node));
        }
    }
    Ok(None)
}
