//! Who merges the contexts of a pool.

ghost use Rattle.std.specs.Prelude.{◌<◌, length, All, IfOk};
ghost use Rattle.std.specs.Thread.{IsSync};
ghost use Rattle.context_model.specs.Merged.{IsMerged};
ghost use Rattle.fan_in.specs.Pools.{lists_at_places};

use crate::alone::merge_alone;
use crate::forked::{FORKED_MIN, merge_all};
use atom_list::Context;
use outside::{Memory, Open};
use std::alloc::Global;
use std::thread::Threads;

/// Who merges the contexts of a pool: one thread, or several. `ready` says what a merger asks of
/// its runtime.
pub trait Merge {
    ghost ready: { Self → Type 0 };

    /// The merge of the contexts of a pool at some places, which may name one more than once; the
    /// empty context where there are none.
    fn merge_all(
        &self,
        alloc: Global,
        pool: &[Context],
        places: &[usize],
    ) -> Result<Context, Memory>
        requires ready { ready self.now }
        requires within { All (λ place. place < length pool.now) places.now }
        ensures { IfOk result (IsMerged (lists_at_places pool.now places.now)) };
}

/// One thread merges all.
#[derive(Clone, Copy)]
pub struct Alone;

impl Merge for Alone {
    ghost ready = { λ _. Unit {0} };

    fn merge_all(
        &self,
        alloc: Global,
        pool: &[Context],
        places: &[usize],
    ) -> Result<Context, Memory> {
        merge_alone(alloc, pool, places)
    }
}

/// From 64 places on several threads merge, and fewer are merged on one.
#[derive_where(Clone, Copy)]
pub struct Beside<'a, R>(pub &'a R);

impl<R: Threads + Sync> Merge for Beside<'_, R> {
    // that the runtime may be shared between threads
    ghost ready = { λ _. IsSync R.row };

    fn merge_all(
        &self,
        alloc: Global,
        pool: &[Context],
        places: &[usize],
    ) -> Result<Context, Memory> {
        if places.len() < FORKED_MIN {
            merge_alone(alloc, pool, places)
        } else {
            merge_all(self.0, alloc, &Open, pool, places)
        }
    }
}
