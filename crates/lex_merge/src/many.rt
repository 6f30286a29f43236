//! The merge of any number of contexts.

ghost use Rattle.std.specs.Prelude.{◌≡◌, ◌+◌, ◌*◌, ◌≤◌, ◌∷◌, length, IfOk};
ghost use Rattle.std.specs.Option.{option_to_list};
ghost use Rattle.context_model.specs.Merged.{IsMerged, merge_of};
ghost use Rattle.lex_merge.specs.Many.{StandFor};

use crate::merge;
use atom_list::Context;
use outside::Memory;
use std::alloc::Global;

/// The merge of a context and its neighbor, where there is one.
fn merge_next(alloc: Global, first: Context, second: Option<Context>) -> Result<Context, Memory>
    ensures merged { IfOk result (IsMerged (first ∷ option_to_list second)) }
    ensures one_by_one { IfOk result (λ merged. merged ≡ merge_of (first ∷ option_to_list second)) }
{
    match second {
        Some(second) => merge(alloc, &first, &second),
        None => {
            // Only the proof needs this: the list of a context is well formed.
            let _list = first.list();
            Ok(first)
        }
    }
}

/// Merges neighbors: half as many contexts, with the same merge.
fn merge_pairs(alloc: Global, contexts: Vec<Context>) -> Result<Vec<Context>, Memory>
    ensures same { IfOk result (λ fewer. StandFor fewer.items contexts.items) }
    ensures half { IfOk result (λ fewer. 2 * length fewer.items ≤ length contexts.items + 1) }
{
    let mut fewer = Vec::with_capacity(alloc, contexts.len().div_ceil(2))?;
    let mut left = contexts.into_iter();
    while let Some(first) = left.next() {
        let merged = merge_next(alloc, first, left.next())?;
        fewer.push(merged)?;
    }
    Ok(fewer)
}

/// The merge of any number of contexts: halves of neighbors are merged, so each atom is taken once
/// for each halving of their number.
pub fn merge_many(alloc: Global, contexts: Vec<Context>) -> Result<Context, Memory>
    ensures merged { IfOk result (IsMerged contexts.items) }
    ensures one_by_one { IfOk result (λ merged. merged ≡ merge_of contexts.items) }
{
    let mut contexts = contexts;
    while 1 < contexts.len() {
        contexts = merge_pairs(alloc, contexts)?;
    }
    match contexts.pop() {
        Some(merged) => {
            // Only the proof needs this: the list of a context is well formed.
            let _list = merged.list();
            Ok(merged)
        }
        None => Ok(Context::empty(alloc)),
    }
}
