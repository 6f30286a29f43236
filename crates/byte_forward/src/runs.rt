//! The merge of two contexts that is written by runs: frames that are next to one another in one of
//! them, and in the merge too.

ghost use Rattle.std.specs.Prelude.{◌≡◌, ◌+◌, ◌<◌, ◌≤◌, ◌⊎◌, List, ℕ, [], ◌++◌, length};
ghost use Rattle.context_model.specs.Framing.{frames};
ghost use Rattle.context_model.specs.GreedyMerge.{greedy_merge};
ghost use Rattle.context_model.specs.Orders.{atom_cmp};
ghost use Rattle.byte_frames.specs.Frames.{AreFramesOf};
ghost use Rattle.byte_forward.specs.Room.{HoldsBytes};
ghost use Rattle.byte_forward.specs.Runs.{IsPassedTo, IsRunBehind, IsSecondNext};

use crate::filling::put_bytes;
use atom_kinds::compare;
use byte_frames::Frames;
use std::cmp::Ordering;

/// What follows the frames of the atoms that come before this one, and its own frame; and whether
/// it has its own.
#[inline(always)]
fn pass_to<'a>(frames: Frames<'a>, other: &[u8]) -> (Frames<'a>, bool)
    ensures form { result.0.form ≡ frames.entry.form }
    ensures passed { (a b : List (List ℕ)) → AreFramesOf frames.entry a
        → IsPassedTo a other.now b result.0 result.1 }
    ensures no_more { length result.0.rest.now ≤ length frames.entry.rest.now }
{
    let mut behind = frames;
    let mut ahead = frames;
    while let Some(frame) = ahead.next_frame() {
        match compare(frame.atom, other) {
            Ordering::Less => behind = ahead,
            Ordering::Equal => return (ahead, true),
            Ordering::Greater => return (behind, false),
        }
    }
    (behind, false)
}

/// What follows a run of the first: its atoms that come before the next of the second, or are equal
/// to it, which is then past too.
#[inline(always)]
fn pass_run<'a>(first: Frames<'a>, second: Frames<'a>) -> (Frames<'a>, Frames<'a>)
    ensures first_form { result.0.form ≡ first.entry.form }
    ensures second_form { result.1.form ≡ second.entry.form }
    ensures run { (a b : List (List ℕ)) → AreFramesOf first.entry a → AreFramesOf second.entry b
        → IsRunBehind a b result.0 result.1 }
    ensures first_no_more { length result.0.rest.now ≤ length first.entry.rest.now }
    ensures second_no_more { length result.1.rest.now ≤ length second.entry.rest.now }
{
    let mut behind = first;
    let mut other = second;
    let mut ahead = second;
    while let Some(frame) = ahead.next_frame() {
        let (passed, equal) = pass_to(behind, frame.atom);
        behind = passed;
        if !equal {
            return (behind, other);
        }
        other = ahead;
    }
    let none = Frames {
        form: behind.form,
        rest: &[],
    };
    (none, other)
}

/// The same, where the next atom of the first is known to come before that of the second: it isn't
/// compared again.
#[inline(always)]
fn pass_known_run<'a>(first: Frames<'a>, second: Frames<'a>) -> (Frames<'a>, Frames<'a>)
    ensures first_form { result.0.form ≡ first.entry.form }
    ensures second_form { result.1.form ≡ second.entry.form }
    ensures run { (a b : List (List ℕ)) → AreFramesOf first.entry a → AreFramesOf second.entry b
        → IsSecondNext b a → IsRunBehind a b result.0 result.1 }
    ensures less { (a : List (List ℕ)) → AreFramesOf first.entry a
        → (length result.0.rest.now ≡ 0)
        ⊎ (length result.0.rest.now < length first.entry.rest.now) }
    ensures no_more { length result.1.rest.now ≤ length second.entry.rest.now }
{
    let mut ahead = first;
    if ahead.next_frame().is_none() {
        return (first, second);
    }
    pass_run(ahead, second)
}

/// Writes the bytes before those that are left, and answers how many they are.
#[inline(always)]
fn put_run(whole: &[u8], left: &[u8], room: &mut [u8]) -> usize
    requires { (run : List ℕ) × (whole.now ≡ run ++ left.now) × (length run ≤ length room.old) }
    ensures size { result + length left.now ≡ length whole.now }
    ensures bytes { (run : List ℕ) → whole.now ≡ run ++ left.now
        → HoldsBytes run result room.old room.new }
{
    put_bytes(&whole[..whole.len() - left.len()], room)
}

/// Writes the frames of the merge of two contexts, which are in the same form, and answers how many
/// bytes they have.
pub(crate) fn put_merge(first: Frames<'_>, second: Frames<'_>, room: &mut [u8]) -> usize
    requires { (a b : List (List ℕ)) × AreFramesOf first a × AreFramesOf second b
        × (second.form ≡ first.form)
        × (length first.rest.now + length second.rest.now ≤ length room.old) }
    ensures { (a b : List (List ℕ)) → AreFramesOf first.entry a → AreFramesOf second.entry b
        → HoldsBytes (frames first.entry.form
        (greedy_merge atom_cmp a b)) result room.old room.new }
{
    let (mut first, mut second) = (first, second);
    let mut at = 0;
    while !second.rest.is_empty() {
        let (first_left, second_next) = pass_run(first, second);
        at += put_run(first.rest, first_left.rest, &mut room[at..]);
        let (second_left, first_next) = pass_known_run(second_next, first_left);
        at += put_run(second_next.rest, second_left.rest, &mut room[at..]);
        first = first_next;
        second = second_left;
    }
    at + put_bytes(first.rest, &mut room[at..])
}
