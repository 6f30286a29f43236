//! The strongly connected components of a graph, by Kosaraju's algorithm: walks over the graph with
//! its edges turned round, from the nodes in the reverse of the order in which walks over the graph
//! left them, meet one component each.

ghost use Rattle.std.specs.Prelude.{◌≡◌, ◌<◌, All, IfOk, OnOk, length};
ghost use Rattle.topological_order.specs.Graphs.{edge_lists_of, IsClosed};
ghost use Rattle.topological_order.specs.Components.{IsTurned, IsTurnedAt, IsNumbered, AreNumbered};
ghost use Rattle.topological_order.specs.Walk.{IsFinishingOrder};

use crate::walk::Walk;
use outside::Memory;
use std::alloc::Global;

/// Puts the edges of one node, turned round, into a graph.
fn turn_edges(turned: &mut Vec<Vec<usize>>, from: usize, row: &[usize]) -> Result<(), Memory>
    requires from { from < length turned.old.items }
    requires row { All (λ to. to < length turned.old.items) row.now }
    requires closed { IsClosed (edge_lists_of turned.old.items) }
    ensures { OnOk result (IsTurnedAt (edge_lists_of turned.old.items)
        (edge_lists_of turned.new.items) from row.now) }
{
    for to in row {
        turned[*to].push(from)?;
    }
    Ok(())
}

/// The graph with its edges turned round.
fn transpose(alloc: Global, graph: &[Vec<usize>]) -> Result<Vec<Vec<usize>>, Memory>
    requires { IsClosed (edge_lists_of graph.now) }
    ensures { IfOk result (λ turned.
        IsTurned (edge_lists_of graph.now) (edge_lists_of turned.items)) }
{
    let mut turned = Vec::new(alloc);
    for _ in graph {
        turned.push(Vec::new(alloc))?;
    }
    for (from, row) in graph.iter().enumerate() {
        turn_edges(&mut turned, from, row)?;
    }
    Ok(turned)
}

/// Gives nodes the number of their component.
fn number(numbers: &mut Vec<usize>, nodes: &[usize], component: usize)
    requires { All (λ node. node < length numbers.old.items) nodes.now }
    ensures { AreNumbered nodes.now component numbers.old.items numbers.new.items }
{
    for node in nodes {
        numbers[*node] = component;
    }
}

/// The number of each node's component: an edge leads to no lesser number. Nodes share one only
/// where they reach each other, which the speed of `first_cyclic` rests on, and not its answer.
pub(crate) fn component_numbers(
    alloc: Global,
    graph: &[Vec<usize>],
    order: &[usize],
) -> Result<Vec<usize>, Memory>
    requires closed { IsClosed (edge_lists_of graph.now) }
    requires order { IsFinishingOrder (edge_lists_of graph.now) order.now }
    ensures { IfOk result (λ numbers. IsNumbered (edge_lists_of graph.now) numbers.items) }
{
    let turned = transpose(alloc, graph)?;
    let mut walk = Walk::new(alloc, &turned)?;
    let mut numbers = vec![in alloc; 0; graph.len()]?;
    for at in (0..order.len()).rev() {
        let component = walk.order.len();
        walk.walk_from(order[at])?;
        number(&mut numbers, &walk.order[component..], component);
    }
    Ok(numbers)
}
