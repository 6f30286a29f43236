//! The merge of some contexts of a pool, by halves in threads of their own.

ghost use Rattle.std.specs.Prelude.{◌<◌, length, All, IfOk};
ghost use Rattle.std.specs.Thread.{IsSync};
ghost use Rattle.context_model.specs.Merged.{IsMerged};
ghost use Rattle.fan_in.specs.Pools.{lists_at_places};

use crate::alone::merge_alone;
use atom_list::Context;
use lex_merge::laws::merges_in_groups;
use lex_merge::merge;
use outside::{Gate, Memory};
use std::alloc::Global;
use std::thread::{Threads, join};

/// Fewer places are merged on one thread: to start another costs more than it saves.
pub(crate) const FORKED_MIN: usize = 64;

/// How often each half is halved again at most, so that there are up to 8 pieces.
const FORKS: u8 = 2;

/// The merge at the places, halved so often at most.
fn merge_halved<R: Threads + Sync>(
    rt: &R,
    alloc: Global,
    forks: u8,
    pool: &[Context],
    places: &[usize],
) -> Result<Context, Memory>
    requires { All (λ place. place < length pool.now) places.now }
    ensures { IfOk result (IsMerged (lists_at_places pool.now places.now)) }
{
    if forks == 0 || places.len() < FORKED_MIN {
        return merge_alone(alloc, pool, places);
    }
    // The proof learns here that the merge of two merges is the merge of all.
    merges_in_groups();
    let forks = forks - 1;
    let (left, right) = places.split_at(places.len() / 2);
    let (first, second) = join(
        rt,
        || -> Result<Context, Memory>
            requires { IsSync R.row × All (λ place. place < length pool.now) left.now }
            ensures { IfOk result (IsMerged (lists_at_places pool.entry.now left.entry.now)) }
        { merge_halved(rt, alloc, forks, pool, left) },
        || -> Result<Context, Memory>
            requires { IsSync R.row × All (λ place. place < length pool.now) right.now }
            ensures { IfOk result (IsMerged (lists_at_places pool.entry.now right.entry.now)) }
        { merge_halved(rt, alloc, forks, pool, right) },
    );
    merge(alloc, &first?, &second?)
}

/// A half of the outermost split, which passes the gate first.
fn merge_half<R: Threads + Sync, G: Gate>(
    rt: &R,
    alloc: Global,
    gate: &G,
    half: usize,
    pool: &[Context],
    places: &[usize],
) -> Result<Context, Memory>
    requires { All (λ place. place < length pool.now) places.now }
    ensures { IfOk result (IsMerged (lists_at_places pool.now places.now)) }
{
    gate.enter(half);
    merge_halved(rt, alloc, FORKS, pool, places)
}

/// The merge of both halves, one after the other.
fn merge_in_turn<R: Threads + Sync, G: Gate>(
    rt: &R,
    alloc: Global,
    gate: &G,
    pool: &[Context],
    places: &[usize],
) -> Result<Context, Memory>
    requires { All (λ place. place < length pool.now) places.now }
    ensures { IfOk result (IsMerged (lists_at_places pool.now places.now)) }
{
    merges_in_groups();
    let (left, right) = places.split_at(places.len() / 2);
    let first = merge_half(rt, alloc, gate, 0, pool, left)?;
    let second = merge_half(rt, alloc, gate, 1, pool, right)?;
    merge(alloc, &first, &second)
}

/// The merge of both halves, beside one another.
fn merge_beside<R: Threads + Sync, G: Gate>(
    rt: &R,
    alloc: Global,
    gate: &G,
    pool: &[Context],
    places: &[usize],
) -> Result<Context, Memory>
    requires { All (λ place. place < length pool.now) places.now }
    ensures { IfOk result (IsMerged (lists_at_places pool.now places.now)) }
{
    merges_in_groups();
    let (left, right) = places.split_at(places.len() / 2);
    let (first, second) = join(
        rt,
        || -> Result<Context, Memory>
            requires { All (λ place. place < length pool.now) left.now }
            ensures { IfOk result (IsMerged (lists_at_places pool.entry.now left.entry.now)) }
        { merge_half(rt, alloc, gate, 0, pool, left) },
        || -> Result<Context, Memory>
            requires { All (λ place. place < length pool.now) right.now }
            ensures { IfOk result (IsMerged (lists_at_places pool.entry.now right.entry.now)) }
        { merge_half(rt, alloc, gate, 1, pool, right) },
    );
    merge(alloc, &first?, &second?)
}

/// The merge of the contexts of a pool at some places, which may name one more than once; the empty
/// context where there are none.
///
/// From two places on they are halved, and the halves pass the gate as its pieces 0 and 1. From 64
/// places on the halves, and halves of them, are merged in threads of their own, one after the
/// other where none can be made.
pub fn merge_all<R: Threads + Sync, G: Gate>(
    rt: &R,
    alloc: Global,
    gate: &G,
    pool: &[Context],
    places: &[usize],
) -> Result<Context, Memory>
    requires { All (λ place. place < length pool.now) places.now }
    ensures { IfOk result (IsMerged (lists_at_places pool.now places.now)) }
{
    match places.len() {
        0 | 1 => merge_alone(alloc, pool, places),
        2..FORKED_MIN => merge_in_turn(rt, alloc, gate, pool, places),
        _ => merge_beside(rt, alloc, gate, pool, places),
    }
}
