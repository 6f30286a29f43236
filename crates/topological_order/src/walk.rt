//! Depth-first walks over a graph, with a stack of their own, so that long paths take no deep
//! recursion.

ghost use Rattle.std.specs.Prelude.{◌≡◌, ℕ, ◌-◌, ◌<◌, IsTrue, Some, length, OnOk, IfOk, slice_get};
ghost use Rattle.topological_order.specs.Graphs.{edge_lists_of, row_of, IsClosed};
ghost use Rattle.topological_order.specs.Walk.{mark_of, is_new, trail_of, opened, met, IsGraphWalk, IsBegun, IsAtEdge, IsAtEnd, IsAtRest, Follows, IsWalkedFrom, IsFinishingOrder};

use outside::Memory;
use std::alloc::Global;

/// How far a walk has come with a node.
#[derive(Clone, Copy)]
pub(crate) enum Mark {
    New,
    /// On the path.
    Open,
    /// All its edges were followed, and it was left.
    Done,
}

/// A depth-first walk over a graph, and what it has met so far.
#[derive(Drop)]
pub(crate) struct Walk<'a> {
    graph: &'a [Vec<usize>],
    marks: Vec<Mark>,
    /// How many edges of each node were followed.
    followed: Vec<usize>,
    /// The open nodes: each has an edge to the next.
    path: Vec<usize>,
    /// The nodes that are done, in the order in which they were left.
    pub order: Vec<usize>,
}

/// The node to which an edge leads, if the node has an edge at `at`.
fn edge(graph: &[Vec<usize>], node: usize, at: usize) -> Option<usize>
    requires { node < length graph.now }
    ensures { result ≡ slice_get (row_of (edge_lists_of graph.now) node) at }
{
    graph[node].get(at).copied()
}

impl<'a> Walk<'a> {
    pub fn new(alloc: Global, graph: &'a [Vec<usize>]) -> Result<Walk<'a>, Memory>
        requires { IsClosed (edge_lists_of graph.now) }
        ensures graph { IfOk result (λ walk. walk.graph.now ≡ graph.now) }
        ensures begun { IfOk result (λ walk. IsBegun (trail_of walk)) }
    {
        Ok(Walk {
            graph,
            marks: vec![in alloc; Mark::New; graph.len()]?,
            followed: vec![in alloc; 0; graph.len()]?,
            path: Vec::new(alloc),
            order: Vec::new(alloc),
        })
    }

    pub fn is_new(&self, node: usize) -> bool
        requires { node < length self.now.marks.items }
        ensures { result ≡ is_new (mark_of self.now.marks.items node) }
    {
        matches!(self.marks[node], Mark::New)
    }

    /// Puts a node on the path.
    fn open(&mut self, node: usize) -> Result<(), Memory>
        requires { node < length self.old.marks.items }
        ensures { OnOk result (trail_of self.new ≡ opened (trail_of self.old) node) }
    {
        self.marks[node] = Mark::Open;
        self.path.push(node)?;
        Ok(())
    }

    /// Puts a node on the path if it is new.
    fn meet(&mut self, node: usize) -> Result<(), Memory>
        requires { node < length self.old.marks.items }
        ensures { OnOk result (trail_of self.new ≡ met (trail_of self.old) node) }
    {
        if self.is_new(node) {
            return self.open(node);
        }
        Ok(())
    }

    /// Follows the next edge of the last node on the path.
    fn follow(&mut self, node: usize, to: usize) -> Result<(), Memory>
        requires { IsAtEdge (trail_of self.old) node to }
        ensures { OnOk result (Follows (trail_of self.old) (trail_of self.new)) }
    {
        self.meet(to)?;
        self.followed[node] += 1;
        Ok(())
    }

    /// Leaves the last node on the path, whose edges were all followed.
    fn leave(&mut self, node: usize) -> Result<(), Memory>
        requires { IsAtEnd (trail_of self.old) node }
        ensures { OnOk result (Follows (trail_of self.old) (trail_of self.new)) }
    {
        self.marks[node] = Mark::Done;
        self.order.push(node)?;
        self.path.pop();
        Ok(())
    }

    /// Goes one step on from the last node on the path.
    fn step(&mut self, node: usize) -> Result<(), Memory>
        requires walk { IsGraphWalk (trail_of self.old) }
        requires top { slice_get self.old.path.items (length self.old.path.items - 1) ≡ Some node }
        ensures { OnOk result (Follows (trail_of self.old) (trail_of self.new)) }
    {
        match edge(self.graph, node, self.followed[node]) {
            Some(to) => self.follow(node, to),
            None => self.leave(node),
        }
    }

    /// Walks along all edges from a node, if it is new, until each node that was met is done.
    pub fn walk_from(&mut self, root: usize) -> Result<(), Memory>
        requires rests { IsAtRest (trail_of self.old) }
        requires root { root < length self.old.graph.now }
        ensures walk { OnOk result (IsWalkedFrom (trail_of self.old) (trail_of self.new) root) }
        ensures path { OnOk result (length self.new.path.items ≡ 0) }
    {
        self.meet(root)?;
        while let Some(&node) = self.path.last() {
            self.step(node)?;
        }
        Ok(())
    }
}

/// The nodes of a graph in the order in which walks from all of them leave them.
pub(crate) fn finishing_order(alloc: Global, graph: &[Vec<usize>]) -> Result<Vec<usize>, Memory>
    requires { IsClosed (edge_lists_of graph.now) }
    ensures { IfOk result (λ order. IsFinishingOrder (edge_lists_of graph.now) order.items) }
{
    let mut walk = Walk::new(alloc, graph)?;
    for root in 0..graph.len() {
        walk.walk_from(root)?;
    }
    Ok(walk.order)
}
