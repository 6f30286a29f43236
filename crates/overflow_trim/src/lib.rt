//! Lists of atoms that are cut to a budget of bytes, with a marker where something was cut off.
//!
//! ```rust
//! trim_context(Form::One, &mut context, 512);               // at most 512 bytes, the marker included
//! ```
#![tactic(auto)]

ghost use Rattle.std.specs.Prelude.{◌≡◌, ◌+◌, ◌^◌, ◌<◌, ◌≤◌, ◌↔◌, length, take, nat_lt, if◌then◌else◌, IsTrue, IfOk, ℕ};
ghost use Rattle.context_model.specs.declared.Form.TheVariants.{One, Two};
ghost use Rattle.context_model.specs.Framing.{frame, frames, head_len, written_in, least_budget, size_of};
ghost use Rattle.context_model.specs.Trimmed.{kept_of, trimmed, KeepsLongest, CutsOnce};
ghost use Rattle.context_model.specs.WellFormed.{IsWellFormed};

use atom_list::{AtomList, Context};
use outside::{ATOM_MAX, Memory};
use wire_bytes::{Form, LENGTH_MAX, frame_len, size};

/// A prefix of a list: how many bytes are before its frames, and how many these have.
#[derive(Clone, Copy)]
struct Front {
    head: u64,
    frames: u64,
}

impl Front {
    /// A prefix with `frames` bytes of frames, in this form.
    fn of(form: Form, frames: u64) -> Front
        ensures head { result.head ≡ head_len form }
        ensures frames { result.frames ≡ frames }
    {
        Front {
            head: form.head_len() as u64,
            frames,
        }
    }

    /// The prefix with one atom more. The first that is too long for form one brings a head.
    fn with(self, atom: &[u8]) -> Front
        requires short { length atom.now ≤ ATOM_MAX }
        requires frames { self.frames < 2 ^ 32 }
        ensures head { result.head
            ≡ (if nat_lt LENGTH_MAX (length atom.now) then head_len Two else self.head) }
        ensures frames { result.frames ≡ self.frames + length (frame One atom.now) }
    {
        let mut head = self.head;
        if LENGTH_MAX < atom.len() {
            head = Form::Two.head_len() as u64;
        }
        Front {
            head,
            frames: self.frames + frame_len(atom) as u64,
        }
    }

    /// How many bytes it has.
    fn size(self) -> u64
        requires { self.head + self.frames < 2 ^ 64 }
        ensures { result ≡ self.head + self.frames }
    {
        self.head + self.frames
    }
}

/// Whether a list has at most `budget` bytes where this form is asked for. Where nothing was cut
/// from it, its atoms are looked at only if it fits without a head and not with one.
fn fits(form: Form, list: &AtomList, budget: u64) -> bool
    ensures { IsTrue result ↔ (size_of form list.now ≤ budget) }
{
    // It says that the frames of a list are no more than a buffer may have.
    let _count = list.len();
    if let Some(frames) = list.framed() {
        let least = frames.len() as u64;
        if budget < least {
            return false;
        }
        if least + Form::Two.head_len() as u64 <= budget {
            return true;
        }
    }
    size(form, list) <= u128::from(budget)
}

/// How many bytes the frames of a prefix may have that fits the budget and is written in the form
/// that is asked for.
fn frames_room(form: Form, list: &AtomList, budget: u64) -> u64
    requires { least_budget form ≤ budget }
    ensures fits { head_len form + result ≤ budget }
    ensures form { (n : ℕ) → length (frames One (take n list.now)) ≤ result
        → written_in form (take n list.now) ≡ form }
{
    let room = budget - form.head_len() as u64;
    match form {
        Form::Two => room,
        Form::One if room <= LENGTH_MAX as u64 => room,
        Form::One if !list.is_long() => room,
        Form::One => LENGTH_MAX as u64,
    }
}

/// How many first atoms have at most `most` bytes of frames, and how many bytes these are. They are
/// found by halves, as far as the list is in its buffer as it was read or made.
fn front_within(list: &AtomList, most: u64) -> (usize, u64)
    ensures within { result.0 ≤ length list.now }
    ensures frames { result.1 ≡ length (frames One (take result.0 list.now)) }
    ensures fits { result.1 ≤ most }
{
    let (mut low, mut high) = (0, list.len());
    let mut frames = 0;
    while low < high {
        let middle = high - (high - low) / 2;
        match list.framed_front(middle) {
            Some(bytes) if bytes.len() as u64 <= most => {
                low = middle;
                frames = bytes.len() as u64;
            }
            _ => high = middle - 1,
        }
    }
    (low, frames)
}

/// How many atoms of a list stay within a budget of bytes where this form is asked for: all of them
/// where the list fits, and otherwise as many as fit with the byte of a marker after them. It takes
/// no memory. Where nothing was cut from the list, it looks at few of its atoms, unless one of them
/// is too long for form one.
pub fn kept(form: Form, list: &AtomList, budget: u64) -> usize
    requires { least_budget form ≤ budget }
    ensures { result ≡ kept_of form list.now budget }
{
    if fits(form, list, budget) {
        return list.len();
    }
    let (start, frames) = front_within(list, frames_room(form, list, budget));
    let mut front = Front::of(form, frames);
    for at in start..list.len() {
        let next = front.with(list.get(at).unwrap());
        if budget < next.size() {
            // Where the prefix fills the budget, its last atom makes room for the marker.
            return if front.size() < budget { at } else { at - 1 };
        }
        front = next;
    }
    list.len()
}

/// Cuts a list to a budget of bytes, in the form that is asked for. A list that fits stays;
/// otherwise its longest prefix that fits with a marker after it stays, and the marker. It takes no
/// memory and can't fail.
pub fn trim(form: Form, list: &mut AtomList, budget: u64)
    requires { least_budget form ≤ budget }
    ensures { list.new ≡ trimmed form list.old budget }
{
    let keep = kept(form, list, budget);
    if keep < list.len() {
        list.cut_to_marker(keep);
    }
}

/// Cuts a context to a budget of bytes, as [`trim`] cuts its list: what stays is a context.
pub fn trim_context(form: Form, context: &mut Context, budget: u64)
    requires { least_budget form ≤ budget }
    ensures trimmed { context.new ≡ trimmed form context.old budget }
    ensures well_formed { IsWellFormed context.new }
{
    let keep = kept(form, context.list(), budget);
    if keep < context.list().len() {
        context.cut_to_marker(keep);
    }
}

/// A copy of a context, cut to a budget of bytes, as [`trim_context`] cuts it. What is cut off
/// isn't copied.
pub fn trimmed_copy(form: Form, context: &Context, budget: u64) -> Result<Context, Memory>
    requires { least_budget form ≤ budget }
    ensures trimmed { IfOk result (λ cut. cut ≡ trimmed form context.now budget) }
    ensures well_formed { IfOk result IsWellFormed }
{
    let keep = kept(form, context.list(), budget);
    if keep < context.list().len() {
        let mut cut = context.front(keep + 1)?;
        cut.cut_to_marker(keep);
        Ok(cut)
    } else {
        context.copy()
    }
}

/// A list that doesn't fit its budget keeps its longest prefix that fits with a marker after it.
pub fn keeps_longest()
    ensures { KeepsLongest }
{}

/// To trim to one budget and then to another, in one form, is to trim to the lesser of the two.
pub fn cuts_once()
    ensures { CutsOnce }
{}
