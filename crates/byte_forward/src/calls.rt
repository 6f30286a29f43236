//! The calls.

ghost use Rattle.std.specs.Prelude.{◌≡◌, ◌+◌, ◌≤◌, List, ℕ, Bool, false, [], ◌∷◌, length, IsTrue, IfOk, IfErr};
ghost use Rattle.context_model.specs.declared.Form.TheVariants.{One};
ghost use Rattle.context_model.specs.ContextFault.{IsContextOf};
ghost use Rattle.context_model.specs.Framing.{form_of, has_long, least_budget, size_of};
ghost use Rattle.byte_forward.specs.Calls.{IsTrimOf, IsCutMergeOf};
ghost use Rattle.byte_forward.specs.Contexts.{IsFaultAt, IsFaultOf, IsMergeOf};
ghost use Rattle.byte_forward.specs.Cutting.{IsUnderWay};
ghost use Rattle.byte_forward.specs.Room.{WritesBytes, WritesWhole};

use crate::cutting::Cut;
use crate::filling::{fill, put_bytes};
use crate::merging::Merging;
use crate::refusals::ByteRefusal;
use crate::runs::put_merge;
use byte_frames::{Frames, survey};
use context_model::HEAD_LEN;
use wire_bytes::{Form, form_of};

/// Whether an atom of the context at this place is too long for form one, or the fault of the bytes
/// there.
#[inline(never)]
fn long_at(place: usize, bytes: &[u8]) -> Result<bool, ByteRefusal>
    ensures found { IfOk result
        (λ long. (list : List (List ℕ)) × IsContextOf list bytes.now × (long ≡ has_long list)) }
    ensures fault { IfErr result (IsFaultOf place bytes.now) }
{
    match survey(bytes) {
        Ok(found) => Ok(found.has_long),
        Err(fault) => Err(ByteRefusal::Fault {
            context: place,
            offset: fault.offset,
            code: fault.code,
        }),
    }
}

/// Writes a cut merge where the buffer has place for it.
fn write_measured(cut: Cut<'_>, room: &mut [u8]) -> Result<usize, ByteRefusal>
    requires { (list : List (List ℕ)) × IsUnderWay [] cut list }
    ensures { WritesBytes cut.entry.form (IsUnderWay [] cut.entry)
        (λ _ _ _. ⊥) room.old room.new result }
{
    let measure = cut.measure();
    if (room.len() as u64) < measure.size {
        return Err(ByteRefusal::Room {
            size: measure.size as usize,
        });
    }
    Ok(fill(measure.written, cut, room))
}

/// The same for a cut merge with at most `most` bytes. Unless an atom is too long for form one,
/// nothing need be measured where the buffer has place for `most` bytes.
fn write_cut(cut: Cut<'_>, long: bool, most: u128, room: &mut [u8]) -> Result<usize, ByteRefusal>
    requires { (list : List (List ℕ)) × IsUnderWay [] cut list
        × (long ≡ false → has_long list ≡ false) × (size_of cut.form list ≤ most) }
    ensures { WritesBytes cut.entry.form (IsUnderWay [] cut.entry)
        (λ _ _ _. ⊥) room.old room.new result }
{
    let as_asked = match cut.form {
        Form::One => !long,
        Form::Two => true,
    };
    if as_asked && most.min(u128::from(cut.budget)) <= room.len() as u128 {
        Ok(fill(cut.form, cut, room))
    } else {
        write_measured(cut, room)
    }
}

/// Whether bytes are in the form that is asked for, and at most `most`: then they are copied as
/// they are.
fn fits_as_is(form: Form, bytes: &[u8], most: u64) -> bool
    ensures { IsTrue result → (form_of bytes.now ≡ form) × (length bytes.now ≤ most) }
{
    form_of(bytes) == form && bytes.len() as u64 <= most
}

/// Whether two contexts are in form one, as is what is asked for, and have together at most `most`
/// bytes. Then no atom of their merge is too long for form one, and nothing is cut from it.
fn fits_whole(form: Form, first: &[u8], second: &[u8], most: u64) -> bool
    ensures { IsTrue result → (form ≡ One) × (form_of first.now ≡ One) × (form_of second.now ≡ One)
        × (length first.now + length second.now ≤ most) }
{
    form == Form::One
        && form_of(first) == Form::One
        && form_of(second) == Form::One
        && (first.len() + second.len()) as u64 <= most
}

/// Writes the merge of two contexts at the beginning of `room`, in the form that is asked for, and
/// answers how many bytes it has. Each context is read in the form that its own bytes begin with.
/// [`ByteRefusal`] says when nothing is written; of a merge of 2^64 bytes or more, which no memory
/// holds, the size that it reports is another.
pub fn merge_bytes(
    form: Form,
    first: &[u8],
    second: &[u8],
    room: &mut [u8],
) -> Result<usize, ByteRefusal>
    ensures { let inputs = first.now ∷ second.now ∷ [] in
        WritesWhole form (IsMergeOf inputs) (IsFaultAt inputs) room.old room.new result }
{
    forward_bytes(form, first, second, u64::MAX, room)
}

/// Writes a context, cut to `budget` bytes in the form that is asked for, as [`merge_bytes`] writes
/// a merge. A budget is at least [`Form::least_budget`]: 1 in form one, 13 in form two.
pub fn trim_bytes(
    form: Form,
    context: &[u8],
    budget: u64,
    room: &mut [u8],
) -> Result<usize, ByteRefusal>
    requires { least_budget form ≤ budget }
    ensures { WritesBytes form (IsTrimOf form budget context.now)
        (IsFaultAt (context.now ∷ [])) room.old room.new result }
{
    let long = long_at(0, context)?;
    if fits_as_is(form, context, budget.min(room.len() as u64)) {
        return Ok(put_bytes(context, room));
    }
    let cut = Cut::of(form, Merging::of(context, &[]), budget);
    write_cut(cut, long, context.len() as u128 + HEAD_LEN as u128, room)
}

/// Writes the merge of two contexts, cut as by [`trim_bytes`]: what a service sends on that
/// received both.
pub fn forward_bytes(
    form: Form,
    first: &[u8],
    second: &[u8],
    budget: u64,
    room: &mut [u8],
) -> Result<usize, ByteRefusal>
    requires { least_budget form ≤ budget }
    ensures { let inputs = first.now ∷ second.now ∷ [] in
        WritesBytes form (IsCutMergeOf form budget inputs)
        (IsFaultAt inputs) room.old room.new result }
{
    let first_long = long_at(0, first)?;
    let second_long = long_at(1, second)?;
    if fits_whole(form, first, second, budget.min(room.len() as u64)) {
        let first = Frames { form, rest: first };
        let second = Frames { form, rest: second };
        return Ok(put_merge(first, second, room));
    }
    let cut = Cut::of(form, Merging::of(first, second), budget);
    let most = first.len() as u128 + second.len() as u128 + HEAD_LEN as u128;
    write_cut(cut, first_long || second_long, most, room)
}
