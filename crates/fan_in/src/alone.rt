//! The merge of some contexts of a pool, on one thread.

ghost use Rattle.std.specs.Prelude.{◌<◌, length, All, IfOk};
ghost use Rattle.context_model.specs.Merged.{IsMerged};
ghost use Rattle.fan_in.specs.Pools.{lists_at_places};

use atom_list::Context;
use lex_merge::laws::{merges_few, merges_in_groups};
use lex_merge::merge;
use outside::Memory;
use std::alloc::Global;

/// The merge of the contexts of a pool at some places, as [`merge_all`](crate::merge_all) gives it,
/// on one thread: by halves of halves, down to two contexts, which are merged where they are.
pub fn merge_alone(alloc: Global, pool: &[Context], places: &[usize]) -> Result<Context, Memory>
    requires { All (λ place. place < length pool.now) places.now }
    ensures { IfOk result (IsMerged (lists_at_places pool.now places.now)) }
{
    // The proof learns here what few contexts come to, and that the merge of two merges is the
    // merge of all.
    merges_few();
    merges_in_groups();
    match places {
        [] => Ok(Context::empty(alloc)),
        [place] => pool[*place].copy(),
        [first, second] => merge(alloc, &pool[*first], &pool[*second]),
        _ => {
            let (left, right) = places.split_at(places.len() / 2);
            let first = merge_alone(alloc, pool, left)?;
            let second = merge_alone(alloc, pool, right)?;
            merge(alloc, &first, &second)
        }
    }
}
