//! The steps on the way to a step of a graph.

ghost use Rattle.std.specs.Prelude.{◌≡◌, ◌↔◌, ◌<◌, ℕ, length, IsTrue, IfOk};
ghost use Rattle.context_model.specs.Orders.{IsIn};
ghost use Rattle.write_proof.specs.Certificates.{AreReachPairs};
ghost use Rattle.write_proof.specs.Reaching.{AreChildren, AreMarked, IsOnWay, pairs_of};

use outside::Memory;
use recorded_graph::Graph;
use std::alloc::Global;

/// A step that reaches another, with the least of its children on the way there.
#[derive(Clone, Copy, Debug)]
pub(crate) struct Reach {
    pub step: usize,
    pub child: usize,
}

/// Makes this the child of some steps.
fn mark_parents(children: &mut Vec<Option<usize>>, parents: &[usize], child: usize)
    requires { (w : ℕ) → IsIn w parents.now → w < length children.old.items }
    ensures { AreMarked parents.now child children.old.items children.new.items }
{
    for parent in parents {
        children[*parent] = Some(child);
    }
}

/// Whether a step is the last, or has a child on the way there.
fn is_on_way(children: &[Option<usize>], last: usize, step: usize) -> bool
    requires { step < length children.now }
    ensures { IsTrue result ↔ IsOnWay children.now last step }
{
    step == last || children[step].is_some()
}

/// The least child of each step on the way to the last; none for one that isn't on the way.
/// Children are taken from the last down, so that of those of a step the least is put there last.
fn least_children(alloc: Global, graph: &Graph, last: usize) -> Result<Vec<Option<usize>>, Memory>
    requires { last < length graph.now.steps }
    ensures { IfOk result (λ children. AreChildren graph.now last 0 children.items) }
{
    // The proof learns here that parents stand before their children.
    graph.known();
    let mut children = vec![in alloc; None; last + 1]?;
    for child in (0..last + 1).rev() {
        if is_on_way(&children, last, child) {
            mark_parents(&mut children, graph.step(child).act.parents(), child);
        }
    }
    Ok(children)
}

/// The steps that reach the last, in order, each with its least child on the way.
pub(crate) fn reaching_steps(
    alloc: Global,
    graph: &Graph,
    last: usize,
) -> Result<Vec<Reach>, Memory>
    requires { last < length graph.now.steps }
    ensures { IfOk result (λ reaching. AreReachPairs graph.now last (pairs_of reaching.items)) }
{
    // The proof learns here that parents are before their children.
    graph.known();
    let children = least_children(alloc, graph, last)?;
    let mut reaching = Vec::new(alloc);
    for step in 0..last {
        if let Some(child) = children[step] {
            reaching.push(Reach { step, child })?;
        }
    }
    Ok(reaching)
}
