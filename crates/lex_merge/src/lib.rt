//! The merge of lists of atoms, by comparing bytes alone.
//!
//! [`merge`] puts two contexts together, and [`merge_many`] any number: what comes out has exactly
//! their paths, whatever the order. The laws are in [`laws`].
//!
//! ```rust
//! let merged = merge(alloc, &ours, &theirs)?;
//! ```
#![tactic(auto)]

ghost use Rattle.std.specs.Prelude.{◌≡◌, [], ◌∷◌, IfOk};
ghost use Rattle.context_model.specs.Orders.{atom_cmp};
ghost use Rattle.context_model.specs.GreedyMerge.{greedy_merge};
ghost use Rattle.context_model.specs.Merged.{IsMerged};
ghost use Rattle.lex_merge.specs.Runs.{IsMergeRun, HasMergeRoom};

pub use crate::many::merge_many;
use crate::runs::{atom, common_front, push_run, run_end};
use atom_kinds::compare;
use atom_list::{AtomList, Builder, Context};
use outside::Memory;
use std::alloc::Global;
use std::cmp::Ordering;

pub mod laws;
mod many;
mod runs;

/// An empty list with room for the atoms of both lists.
fn room_for(alloc: Global, a: &AtomList, b: &AtomList) -> Result<Builder, Memory>
    ensures room { IfOk result (HasMergeRoom a.now 0 b.now 0) }
    ensures empty { IfOk result (λ built. built.atoms ≡ []) }
{
    Builder::with_room(alloc, a.room() + b.room(), a.len() + b.len())
}

/// The merge of two lists whose first `front` atoms are the same. Where the second brings no atom,
/// it is the first list.
fn merge_behind(alloc: Global, a: &AtomList, b: &AtomList, front: usize) -> Result<AtomList, Memory>
    requires { IsMergeRun a.now 0 b.now 0 front front }
    ensures { IfOk result (λ merged. merged ≡ greedy_merge atom_cmp a.now b.now) }
{
    let (mut i, mut j) = run_end(a, front, b, front);
    if j == b.len() {
        return a.copy();
    }
    let mut built = room_for(alloc, a, b)?;
    built.push_run(a, 0, i);
    while i < a.len() && j < b.len() {
        let (next_b, next_a) = push_run(&mut built, b, j, a, i);
        let (next_a, next_b) = push_run(&mut built, a, next_a, b, next_b);
        i = next_a;
        j = next_b;
    }
    built.push_rest(a, i);
    built.push_rest(b, j);
    built.finish()
}

/// The greedy merge of any two lists: the lesser of the two first atoms is taken, once where both
/// begin with it, and so on with what is left; where one list has come to its end, the rest of the
/// other follows. Where that is one of the two lists, it shares that list's buffer.
pub fn merge_lists(alloc: Global, a: &AtomList, b: &AtomList) -> Result<AtomList, Memory>
    ensures { IfOk result (λ merged. merged ≡ greedy_merge atom_cmp a.now b.now) }
{
    let front = common_front(a, b);
    if front == b.len() {
        return a.copy();
    }
    if front == a.len() {
        return b.copy();
    }
    match compare(atom(a, front), atom(b, front)) {
        Ordering::Greater => merge_behind(alloc, b, a, front),
        _ => merge_behind(alloc, a, b, front),
    }
}

/// The merge of two contexts: the context that has exactly the paths of both. It is their greedy
/// merge, so it takes no look at a path.
pub fn merge(alloc: Global, a: &Context, b: &Context) -> Result<Context, Memory>
    ensures merged { IfOk result (λ merged. IsMerged (a.now ∷ b.now ∷ []) merged) }
    ensures greedy { IfOk result (λ merged. merged ≡ greedy_merge atom_cmp a.now b.now) }
{
    let merged = merge_lists(alloc, a.list(), b.list())?;
    Ok(Context::of(merged))
}
