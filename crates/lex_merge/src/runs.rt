//! Runs: atoms that a merge takes from one of its lists, one after the other.

ghost use Rattle.std.specs.Prelude.{◌≡◌, ◌+◌, ◌<◌, ◌≤◌, length, false, if◌then◌else◌};
ghost use Rattle.context_model.specs.Paths.{atom_at};
ghost use Rattle.lex_merge.specs.Runs.{IsMergeRun, ComesLater, HasMergeRoom, MergeGoesOn};

use atom_kinds::compare;
use atom_list::{AtomList, Builder};
use std::cmp::Ordering;

/// The atom at a place.
pub(crate) fn atom(list: &AtomList, at: usize) -> &[u8]
    requires { at < length list.now }
    ensures { result.now ≡ atom_at list.now at }
{
    list.get(at).unwrap()
}

/// How many first atoms two lists have in common.
pub(crate) fn common_front(a: &AtomList, b: &AtomList) -> usize
    ensures first { IsMergeRun a.now 0 b.now 0 result result }
    ensures second { IsMergeRun b.now 0 a.now 0 result result }
{
    let most = a.len().min(b.len());
    for at in 0..most {
        if atom(a, at) != atom(b, at) {
            return at;
        }
    }
    most
}

/// The place after the atoms of the first list that come before one atom of the second or are equal
/// to it, and whether one is equal.
fn run_to(a: &AtomList, i: usize, b: &AtomList, j: usize) -> (usize, bool)
    requires first { i ≤ length a.now }
    requires second { j < length b.now }
    ensures run { IsMergeRun a.now i b.now j result.0 (if result.1 then j + 1 else j) }
    ensures ends { result.1 ≡ false → ComesLater a.now result.0 b.now j }
{
    let other = atom(b, j);
    for at in i..a.len() {
        match compare(atom(a, at), other) {
            Ordering::Less => {}
            Ordering::Equal => return (at + 1, true),
            Ordering::Greater => return (at, false),
        }
    }
    (a.len(), false)
}

/// The places after a run of the first list, whose atoms come before those of the second or are
/// equal to them.
pub(crate) fn run_end(a: &AtomList, i: usize, b: &AtomList, j: usize) -> (usize, usize)
    requires first { i ≤ length a.now }
    requires second { j ≤ length b.now }
    ensures run { IsMergeRun a.now i b.now j result.0 result.1 }
    ensures ends { ComesLater a.now result.0 b.now result.1 }
{
    let mut next = i;
    for other in j..b.len() {
        let (behind, equal) = run_to(a, next, b, other);
        if !equal {
            return (behind, other);
        }
        next = behind;
    }
    (next, b.len())
}

/// The same, where the first of these atoms is known to come before that of the second list: it
/// isn't compared again.
fn run_behind(a: &AtomList, i: usize, b: &AtomList, j: usize) -> (usize, usize)
    requires first { i ≤ length a.now }
    requires second { j ≤ length b.now }
    requires before { ComesLater b.now j a.now i }
    ensures run { IsMergeRun a.now i b.now j result.0 result.1 }
    ensures ends { ComesLater a.now result.0 b.now result.1 }
    ensures some { i < length a.now → j < length b.now → i < result.0 }
{
    if i == a.len() || j == b.len() {
        return (i, j);
    }
    run_end(a, i + 1, b, j)
}

/// Puts out a run of the first list, whose first atom is known to come before that of the second,
/// and answers the places after it.
pub(crate) fn push_run(
    built: &mut Builder,
    a: &AtomList,
    i: usize,
    b: &AtomList,
    j: usize,
) -> (usize, usize)
    requires room { HasMergeRoom a.now i b.now j built.old }
    requires before { ComesLater b.now j a.now i }
    ensures on { MergeGoesOn a.now i b.now j built.old result.0 result.1 built.new }
    ensures ends { ComesLater a.now result.0 b.now result.1 }
    ensures some { i < length a.now → j < length b.now → i < result.0 }
{
    let (next, other) = run_behind(a, i, b, j);
    built.push_run(a, i, next);
    (next, other)
}
