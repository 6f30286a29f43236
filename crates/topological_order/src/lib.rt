//! The order of a graph's nodes in which each is after those that its edges lead to.
//!
//! ```rust
//! match topological_order(alloc, &edges)? { // for each node, those to which its edges lead
//!     Sorted::Order(nodes) => ..
//!     Sorted::Cycle(node) => ..            // the first node that reaches itself
//! }
//! ```
#![tactic(auto)]

mod components;
mod cycles;
pub mod laws;
mod walk;

ghost use Rattle.std.specs.Prelude.{IfOk};
ghost use Rattle.topological_order.specs.Graphs.{edge_lists_of, IsClosed};
ghost use Rattle.topological_order.specs.Orders.{IsSorted};

use crate::components::component_numbers;
use crate::cycles::first_cyclic;
use crate::walk::finishing_order;
use outside::Memory;
use std::alloc::Global;

/// The nodes of a graph in order, or why there is no order.
#[derive(Debug, Drop)]
pub enum Sorted {
    /// Each node once, after all those that its edges lead to.
    Order(Vec<usize>),
    /// The first node, by number, that reaches itself along one edge or several.
    Cycle(usize),
}

/// Sorts the nodes of a graph, which has a row for each node with the nodes that its edges lead to.
/// The nodes that reach themselves are those whose strongly connected component has several nodes,
/// or which have an edge to themselves. Each edge is followed a few times, however many there are,
/// and long paths take no deep recursion.
pub fn topological_order(alloc: Global, graph: &[Vec<usize>]) -> Result<Sorted, Memory>
    requires { IsClosed (edge_lists_of graph.now) }
    ensures { IfOk result (IsSorted (edge_lists_of graph.now)) }
{
    let order = finishing_order(alloc, graph)?;
    let numbers = component_numbers(alloc, graph, &order)?;
    match first_cyclic(alloc, graph, &numbers)? {
        Some(node) => Ok(Sorted::Cycle(node)),
        None => Ok(Sorted::Order(order)),
    }
}
