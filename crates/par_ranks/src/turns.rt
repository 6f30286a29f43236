//! When each step of a graph is run.
//!
//! The rank of a step is one above the greatest rank of its parents. Each rank has two turns: an
//! even one for most of its steps, which are run beside one another, and an odd one for its joins
//! of many parents, each of which is run in several threads.

ghost use Rattle.std.specs.Prelude.{◌≡◌, ◌+◌, ◌*◌, ◌^◌, ◌<◌, ◌≤◌, length, slice_index, All, IfOk};
ghost use Rattle.par_ranks.specs.Turns.{AreLow, AreTurns, AreRows, row_at};

use outside::Memory;
use recorded_graph::{Graph, Places};
use std::alloc::Global;

/// A join of at least this many parents is run in several threads.
pub(crate) const WIDE_MIN: usize = 64;

/// A row of at least this many steps may be cut into chunks.
pub(crate) const BESIDE_MIN: usize = 8;

/// The turn of a step, from those of the steps before it.
fn turn_after(turns: &[usize], parents: &[usize]) -> usize
    requires few { length turns.now < 2 ^ 32 }
    requires low { AreLow turns.now }
    requires parents { All (λ parent. parent < length turns.now) parents.now }
    ensures low { result ≤ 2 * length turns.now + 1 }
    ensures later { All (λ parent. slice_index turns.now parent < result) parents.now }
{
    let mut rank = 0;
    for parent in parents {
        rank = rank.max(turns[*parent] / 2 + 1);
    }
    if parents.len() < WIDE_MIN {
        2 * rank
    } else {
        2 * rank + 1
    }
}

/// The turn of each step.
pub(crate) fn turns_of(alloc: Global, graph: &Graph) -> Result<Vec<usize>, Memory>
    ensures as_many { IfOk result (λ turns. length turns.items ≡ length graph.now.steps) }
    ensures turns { IfOk result (λ turns. AreTurns graph.now turns.items) }
    ensures few { IfOk result (λ turns. length turns.items < 2 ^ 32) }
{
    // The proof learns here that each step names only earlier ones as its parents.
    graph.known();
    let mut turns = Vec::with_capacity(alloc, graph.steps())?;
    for number in 0..graph.steps() {
        let own = graph.step(number);
        let turn = turn_after(turns.as_slice(), own.act.parents());
        turns.push(turn)?;
    }
    Ok(turns)
}

/// One more than the last turn.
fn turns_count(turns: &[usize]) -> usize
    requires few { length turns.now < 2 ^ 32 }
    requires low { AreLow turns.now }
    ensures { All (λ turn. turn < result) turns.now }
{
    let mut count = 0;
    for turn in turns {
        count = count.max(*turn + 1);
    }
    count
}

/// Whether threads may be of use: some turn has enough steps for chunks, or a join of many parents.
/// Only speed hangs on it: steps that run on one thread have the same lists. So no clause says what
/// it answers.
pub(crate) fn are_worth_threads(alloc: Global, turns: &[usize]) -> Result<bool, Memory>
    requires few { length turns.now < 2 ^ 32 }
    requires low { AreLow turns.now }
{
    let mut widths = vec![in alloc; 0usize; turns_count(turns)]?;
    for turn in turns {
        let width = widths[*turn].saturating_add(1);
        if *turn % 2 == 1 || BESIDE_MIN <= width {
            return Ok(true);
        }
        widths[*turn] = width;
    }
    Ok(false)
}

/// A row without steps for each turn.
fn empty_rows(alloc: Global, turns: &[usize]) -> Result<Vec<Places>, Memory>
    requires few { length turns.now < 2 ^ 32 }
    requires low { AreLow turns.now }
    ensures all { IfOk result (λ rows. All (λ turn. turn < length rows.items) turns.now) }
    ensures rows { IfOk result (λ rows. AreRows turns.now 0 rows.items) }
{
    let mut rows = Vec::new(alloc);
    for _ in 0..turns_count(turns) {
        rows.push(Places::new(alloc))?;
    }
    Ok(rows)
}

/// The row of each turn: the steps that have the turn.
pub(crate) fn rows_of(alloc: Global, turns: &[usize]) -> Result<Vec<Places>, Memory>
    requires few { length turns.now < 2 ^ 32 }
    requires low { AreLow turns.now }
    ensures { IfOk result (λ rows. AreRows turns.now (length turns.now) rows.items) }
{
    let mut rows = empty_rows(alloc, turns)?;
    for number in 0..turns.len() {
        rows[turns[number]].push(number)?;
    }
    Ok(rows)
}
