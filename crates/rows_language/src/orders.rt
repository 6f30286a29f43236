//! Rows of graphs of numbers: their orders and their cycles.

ghost use Rattle.std.specs.Prelude.{◌<◌, All, IsTrue};
ghost use Rattle.topological_order.specs.Graphs.{edge_lists_of, IsClosed};

use crate::answers::{Answer, wanting};
use row_files::{Field, Reason, Row, RowFault};
use std::alloc::{AllocError, Global};
use std::mem;
use topological_order::{Sorted, topological_order};

/// The numbers of a line.
fn numbers_of(alloc: Global, field: &Field<'_>, line: &str) -> Result<Vec<usize>, RowFault> {
    let mut numbers = Vec::new(alloc);
    for word in line.split_whitespace() {
        let Ok(number) = word.parse::<usize>() else {
            return Err(field.fault(Reason::Number));
        };
        numbers.push(number)?;
    }
    Ok(numbers)
}

/// The graph of a row: each line of its field `edges` has the nodes that those of a node lead to.
fn graph_of(alloc: Global, row: Row<'_>) -> Result<Vec<Vec<usize>>, RowFault> {
    let field = row.needed("edges")?;
    let mut graph = Vec::new(alloc);
    for line in field.text()?.lines() {
        graph.push(numbers_of(alloc, field, line)?)?;
    }
    Ok(graph)
}

/// Whether these are all below a number.
fn is_within(row: &[usize], len: usize) -> bool
    ensures { IsTrue result → All (λ to. to < len) row.now }
{
    row.iter().all(|to| *to < len)
}

/// Whether each edge leads to a node.
fn is_closed(graph: &[Vec<usize>]) -> bool
    ensures { IsTrue result → IsClosed (edge_lists_of graph.now) }
{
    for row in graph {
        if !is_within(row, graph.len()) {
            return false;
        }
    }
    true
}

/// Whether a node hasn't been seen, but all that its edges lead to. Then it has been seen.
fn may_follow(graph: &[Vec<usize>], seen: &mut [bool], node: usize) -> bool {
    let Some(row) = graph.get(node) else {
        return false;
    };
    if !row.iter().all(|to| seen.get(*to) == Some(&true)) {
        return false;
    }
    match seen.get_mut(node) {
        Some(place) => !mem::replace(place, true),
        None => false,
    }
}

/// Whether these are the nodes of the graph, each after all that its edges lead to.
fn is_order(alloc: Global, graph: &[Vec<usize>], order: &[usize]) -> Result<bool, AllocError> {
    let mut seen = Vec::from_elem(alloc, false, graph.len())?;
    for node in order {
        if !may_follow(graph, &mut seen, *node) {
            return Ok(false);
        }
    }
    Ok(order.len() == graph.len())
}

/// The first node of a row's graph that reaches itself, or that it has an order, which is tried.
pub fn order(alloc: Global, row: Row<'_>) -> Result<Answer, RowFault> {
    let graph = graph_of(alloc, row)?;
    if !is_closed(&graph) {
        return Err(row.needed("edges")?.fault(Reason::Number));
    }
    let text = match topological_order(alloc, &graph).map_err(wanting)? {
        Sorted::Cycle(node) => format!(in alloc; "cycle {node}")?,
        Sorted::Order(order) if is_order(alloc, &graph, &order)? => String::from_str(
            alloc, "order",
        )?,
        Sorted::Order(_) => String::from_str(alloc, "no order")?,
    };
    Ok(Answer::Is("has", text))
}
