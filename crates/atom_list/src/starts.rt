//! Where the frames of a list's atoms begin in its buffer.

ghost use Rattle.std.specs.Prelude.{◌≡◌, ◌+◌, ◌<◌, ◌≤◌, ◌++◌, ℕ, List, length, map, drop, slice_index, vec_len, vec_capacity};
ghost use Rattle.std.specs.Ordering.{nat_cmp};
ghost use Rattle.context_model.specs.declared.Form.TheVariants.{One};
ghost use Rattle.context_model.specs.Framing.{frame};
ghost use Rattle.context_model.specs.Orders.{Rises};
ghost use Rattle.context_model.specs.WireFault.{length_front, length_said};
ghost use Rattle.atom_list.specs.Starts.{atom_framed_at, IsStart, BeginsFrame, AreStarts, AreMovable, IsFrameRow, KeepsFront, LeavesOut, moved};

use outside::ATOM_MAX;

/// How many bytes the length of an atom takes that begins at this place, and the length.
fn length_at(bytes: &[u8], start: usize) -> (usize, usize)
    requires { BeginsFrame (drop start bytes.now) }
    ensures bytes { result.0 ≡ length (length_front (drop start bytes.now)) }
    ensures length { result.1 ≡ length_said (length_front (drop start bytes.now)) }
{
    let low = usize::from(bytes[start]);
    if low < 128 {
        return (1, low);
    }
    let middle = usize::from(bytes[start + 1]);
    if middle < 128 {
        return (2, low - 128 + middle * 128);
    }
    let high = usize::from(bytes[start + 2]);
    (3, low - 128 + (middle - 128) * 128 + high * 16_384)
}

/// The atom whose frame begins at this place of a buffer. Where the buffer ends before the place,
/// it is a marker.
pub(crate) fn atom_at(bytes: &[u8], start: u32) -> &[u8]
    requires { IsStart bytes.now start }
    ensures atom { result.now ≡ atom_framed_at bytes.now start }
    ensures short { length result.now ≤ ATOM_MAX }
{
    let start = start as usize;
    if bytes.len() <= start {
        return &[];
    }
    let (skip, len) = length_at(bytes, start);
    &bytes[start + skip..start + skip + len]
}

/// Where the frame ends that begins at this place of a buffer.
pub(crate) fn frame_end(bytes: &[u8], start: u32) -> usize
    requires { BeginsFrame (drop start bytes.now) }
    ensures end { result ≡ start + length (frame One (atom_framed_at bytes.now start)) }
    ensures within { result ≤ length bytes.now }
{
    let start = start as usize;
    let (skip, len) = length_at(bytes, start);
    start + skip + len
}

/// How many of these frames, from the first on, follow one another in the buffer, and where the
/// last of them ends.
pub(crate) fn row_of(bytes: &[u8], starts: &[u32]) -> (usize, usize)
    requires { AreStarts bytes.now starts.now }
    ensures few { result.0 ≤ length starts.now }
    ensures row { IsFrameRow bytes.now starts.now result.0 result.1 }
{
    let Some(first) = starts.first() else {
        return (0, 0);
    };
    let mut end = *first as usize;
    for (count, start) in starts.iter().enumerate() {
        if *start as usize != end || bytes.len() <= end {
            return (count, end);
        }
        end = frame_end(bytes, *start);
    }
    (starts.len(), end)
}

/// Appends starts, moved from a buffer where the first is `from` to one where it is `to`. It takes
/// no memory.
pub(crate) fn put_moved(starts: &mut Vec<u32>, more: &[u32], from: u32, to: u32)
    requires room { vec_len starts.old + length more.now ≤ vec_capacity starts.old }
    requires movable { AreMovable from to more.now }
    ensures items { starts.new.items ≡ starts.old.items ++ map (moved from to) more.now }
    ensures capacity { vec_capacity starts.new ≡ vec_capacity starts.old }
{
    for start in more {
        starts.push_reserved(*start - from + to);
    }
}

/// Gives back the room that the starts don't take, where it is more than a third of all: to move
/// them costs more than less room does.
pub(crate) fn give_back_room(starts: &mut Vec<u32>)
    ensures { starts.new.items ≡ starts.old.items }
{
    let room = starts.capacity();
    if starts.len() < room - room / 3 {
        starts.shrink_to_fit();
    }
}

/// Takes out the starts at these places, of which there is one at least, and which rise; all others
/// stay, in order. It takes no memory, and goes over the starts once.
pub(crate) fn keep_others(starts: &mut Vec<u32>, gone: &[usize])
    requires some { 0 < length gone.now }
    requires rises { Rises nat_cmp gone.now }
    requires within { (k : ℕ) → k < length gone.now → slice_index gone.now k < vec_len starts.old }
    ensures atoms { LeavesOut gone.now starts.old.items starts.new.items }
    ensures fit { (bytes : List ℕ) → AreStarts bytes starts.old.items
        → AreStarts bytes starts.new.items }
    ensures front { KeepsFront gone.now starts.old.items starts.new.items }
{
    let mut kept = gone[0];
    let mut taken = 0;
    for at in gone[0]..starts.len() {
        if taken < gone.len() && gone[taken] == at {
            taken += 1;
        } else {
            starts[kept] = starts[at];
            kept += 1;
        }
    }
    starts.truncate(kept);
}
