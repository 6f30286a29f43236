//! Frames that follow one another in the buffer of a list.

ghost use Rattle.std.specs.Prelude.{◌≡◌, ◌+◌, ◌*◌, ◌^◌, ◌<◌, ◌≤◌, [], length, take, IfSome};
ghost use Rattle.context_model.specs.declared.Form.TheVariants.{One};
ghost use Rattle.context_model.specs.Framing.{frames};
ghost use Rattle.atom_list.specs.Builder.{byte_room_for, run_room};
ghost use Rattle.atom_list.specs.Starts.{IsPieceFrom};

use crate::lists::AtomList;
use crate::starts::{frame_end, row_of};

/// Frames that follow one another, which begin at `at` in the buffer of their list, and where each
/// begins there.
#[derive(Clone, Copy, Debug)]
pub struct Piece<'a> {
    pub bytes: &'a [u8],
    pub at: u32,
    pub starts: &'a [u32],
}

impl Piece<'_> {
    /// No frame.
    fn empty() -> Piece<'static>
        ensures bytes { result.bytes.now ≡ [] }
        ensures starts { result.starts.now ≡ [] }
    {
        Piece {
            bytes: &[],
            at: 0,
            starts: &[],
        }
    }
}

impl AtomList {
    /// The frames of the atoms from one place to another, as far as they follow one another in the
    /// buffer.
    pub(crate) fn piece(&self, from: usize, to: usize) -> Piece<'_>
        requires order { from ≤ to }
        requires within { to ≤ length self.now }
        ensures short { from + length result.starts.now ≤ to }
        ensures piece { IsPieceFrom self.now from result.bytes.now result.at result.starts.now }
    {
        if from < self.laid {
            self.front_piece(from, to)
        } else {
            self.found_piece(from, to)
        }
    }

    /// The frames from one place to another, as far as they are laid one after the other. None of
    /// them is looked at but the last.
    fn front_piece(&self, from: usize, to: usize) -> Piece<'_>
        requires order { from ≤ to }
        requires within { to ≤ length self.now }
        ensures short { from + length result.starts.now ≤ to }
        ensures piece { IsPieceFrom self.now from result.bytes.now result.at result.starts.now }
    {
        let to = to.min(self.laid);
        if to <= from {
            return Piece::empty();
        }
        let start = self.starts[from];
        let end = frame_end(self.bytes.as_slice(), self.starts[to - 1]);
        Piece {
            bytes: &self.bytes.as_slice()[start as usize..end],
            at: start,
            starts: &self.starts.as_slice()[from..to],
        }
    }

    /// The frames from one place to another, as far as each follows the one before it in the
    /// buffer: none where a marker that a cut left comes first.
    fn found_piece(&self, from: usize, to: usize) -> Piece<'_>
        requires order { from ≤ to }
        requires within { to ≤ length self.now }
        ensures short { from + length result.starts.now ≤ to }
        ensures piece { IsPieceFrom self.now from result.bytes.now result.at result.starts.now }
    {
        let bytes = self.bytes.as_slice();
        let starts = &self.starts.as_slice()[from..to];
        let (count, end) = row_of(bytes, starts);
        if count == 0 {
            return Piece::empty();
        }
        let start = starts[0];
        Piece {
            bytes: &bytes[start as usize..end],
            at: start,
            starts: &starts[..count],
        }
    }

    /// The bytes of the list in form one, where its frames follow one another in its buffer. `None`
    /// says nothing: they may have to be written.
    pub fn framed(&self) -> Option<&[u8]>
        ensures { IfSome result (λ bytes. bytes.now ≡ frames One self.now) }
    {
        let piece = self.piece(0, self.len());
        if piece.starts.len() == self.len() {
            Some(piece.bytes)
        } else {
            None
        }
    }

    /// The bytes of the first `keep` atoms in form one, where the buffer begins with their frames.
    /// `None` says nothing. None of the atoms is looked at but the last of these, so a place in a
    /// list is found by halves.
    pub fn framed_front(&self, keep: usize) -> Option<&[u8]>
        requires { keep ≤ length self.now }
        ensures { IfSome result (λ bytes. bytes.now ≡ frames One (take keep self.now)) }
    {
        if self.laid < keep {
            return None;
        }
        let piece = self.front_piece(0, keep);
        if piece.starts.len() == keep {
            Some(piece.bytes)
        } else {
            None
        }
    }

    /// Room for the bytes of the list in a builder, at most two bytes an atom more than they take.
    pub fn room(&self) -> usize
        ensures enough { byte_room_for self.now ≤ result }
        ensures bound { result ≤ byte_room_for self.now + 2 * length self.now }
        ensures light { result < 2 ^ 35 }
    {
        let mut room = 0;
        let mut at = 0;
        while at < self.len() {
            let (count, more) = self.next_room(at);
            room += more;
            at += count;
        }
        room
    }

    /// How many frames follow one another from a place on, or 1 where the atom there has none, and
    /// room for them.
    fn next_room(&self, at: usize) -> (usize, usize)
        requires { at < length self.now }
        ensures some { 1 ≤ result.0 }
        ensures few { at + result.0 ≤ length self.now }
        ensures enough { run_room self.now at (at + result.0) ≤ result.1 }
        ensures bound { result.1 ≤ run_room self.now at (at + result.0) + 2 * result.0 }
    {
        let piece = self.piece(at, self.len());
        let count = piece.starts.len();
        if count == 0 {
            return (1, self.get(at).unwrap().len() + 3);
        }
        (count, 2 * count + piece.bytes.len())
    }
}
