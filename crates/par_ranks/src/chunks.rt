//! Into how many chunks a row of steps is cut.

ghost use Rattle.std.specs.Prelude.{◌≡◌, ◌<◌, length, All};

use crate::turns::{BESIDE_MIN, WIDE_MIN};
use atom_list::Context;
use recorded_graph::{Act, Graph};

/// A row of at least this many steps is cut into two chunks at least, however little work they are.
const CHUNKED_MIN: usize = 64;

/// The most chunks of a row.
const CHUNKS_MAX: usize = 4;

/// Steps that go over fewer atoms each take most of their time from the allocator, and gain nothing
/// from further threads.
const HEAVY_MIN: usize = 256;

/// Going over this many atoms is worth a thread, which takes some 50 microseconds to start and to
/// wait for.
const WORTH_A_THREAD: usize = 4_096;

/// How many atoms the lists of some steps have. Only speed hangs on it, so no clause says what it
/// answers.
fn atoms_of(lists: &[Context], steps: &[usize]) -> usize
    requires { All (λ step. step < length lists.now) steps.now }
{
    let mut atoms: usize = 0;
    for step in steps {
        atoms = atoms.saturating_add(lists[*step].list().len());
    }
    atoms
}

/// How many atoms a step goes over: those of its parents' lists. A branch goes over none. Only
/// speed hangs on it, so no clause says what it answers.
fn work_of(graph: &Graph, lists: &[Context], step: usize) -> usize
    requires lists { length lists.now ≡ length graph.now.steps }
    requires step { step < length graph.now.steps }
{
    // The proof learns here that each step names only earlier ones as its parents.
    graph.known();
    let own = graph.step(step);
    match &own.act {
        Act::Branch { .. } => 0,
        _ => atoms_of(lists, own.act.parents()),
    }
}

/// How many atoms the steps of a row go over. Only speed hangs on it, so no clause says what it
/// answers.
fn work_of_row(graph: &Graph, lists: &[Context], row: &[usize]) -> usize
    requires lists { length lists.now ≡ length graph.now.steps }
    requires row { All (λ step. step < length graph.now.steps) row.now }
{
    let mut work: usize = 0;
    for step in row {
        work = work.saturating_add(work_of(graph, lists, *step));
    }
    work
}

/// Whether a step is a join of many parents. Only speed hangs on it, so no clause says what it
/// answers.
fn is_wide(graph: &Graph, step: usize) -> bool
    requires { step < length graph.now.steps }
{
    WIDE_MIN <= graph.step(step).act.parents().len()
}

/// Into how many chunks a row is cut: one where it has few steps or joins of many parents, and else
/// as many as its work is worth. Only speed hangs on it: the lists are the same, however a row is
/// cut. So no clause says what it answers.
pub(crate) fn chunk_count(graph: &Graph, lists: &[Context], row: &[usize]) -> usize
    requires lists { length lists.now ≡ length graph.now.steps }
    requires row { All (λ step. step < length graph.now.steps) row.now }
{
    if row.len() < BESIDE_MIN || is_wide(graph, row[0]) {
        return 1;
    }
    let least = if row.len() < CHUNKED_MIN { 1 } else { 2 };
    let work = work_of_row(graph, lists, row);
    if work / row.len() < HEAVY_MIN {
        return least;
    }
    (work / WORTH_A_THREAD).clamp(least, CHUNKS_MAX)
}
