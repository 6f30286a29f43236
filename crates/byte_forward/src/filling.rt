//! A cut merge written into a buffer.

ghost use Rattle.std.specs.Prelude.{◌≡◌, ◌≤◌, List, ℕ, [], length};
ghost use Rattle.context_model.specs.declared.Form.TheVariants.{One, Two};
ghost use Rattle.context_model.specs.Framing.{base_128, bytes_of, frame, frames, head, head_len, length_code, most, size_of, written_in};
ghost use Rattle.byte_forward.specs.Merging.{IsFramePiece};
ghost use Rattle.byte_forward.specs.Cutting.{IsUnderWay};
ghost use Rattle.byte_forward.specs.Room.{HoldsBytes};

use crate::cutting::Cut;
use crate::merging::Piece;
use context_model::HEAD_LEN;
use lex_varint::put_u64;
use wire_bytes::{Form, MARK};

/// Writes bytes at the beginning of the buffer, and answers how many they are. The rest of the
/// buffer stays.
#[inline(always)]
pub(crate) fn put_bytes(bytes: &[u8], room: &mut [u8]) -> usize
    requires { length bytes.now ≤ length room.old }
    ensures { HoldsBytes bytes.now result room.old room.new }
{
    room[..bytes.len()].copy_from_slice(bytes);
    bytes.len()
}

/// The same for a length in base 128.
#[tactic(auto, unfolding(context_model::specs::Framing::base_128))]
fn put_base_128(len: usize, room: &mut [u8]) -> usize
    requires short { len ≤ most One }
    requires room { length (base_128 len) ≤ length room.old }
    ensures { HoldsBytes (base_128 len) result room.old room.new }
{
    let low = (len % 128) as u8;
    let middle = (len / 128 % 128) as u8;
    match len {
        0..128 => put_bytes(&[low], room),
        128..16_384 => put_bytes(&[low + 128, middle], room),
        _ => put_bytes(&[low + 128, middle + 128, (len / 16_384) as u8], room),
    }
}

/// The same for a length in this form.
fn put_length(written: Form, len: usize, room: &mut [u8]) -> usize
    requires short { len ≤ most written }
    requires room { length (length_code written len) ≤ length room.old }
    ensures { HoldsBytes (length_code written len) result room.old room.new }
{
    match written {
        Form::One => put_base_128(len, room),
        Form::Two => put_bytes(put_u64(len as u64).as_slice(), room),
    }
}

/// The same for the frame of an atom in this form: it is copied where it is in bytes of the form.
fn put_piece(written: Form, piece: Piece<'_>, room: &mut [u8]) -> usize
    requires piece { IsFramePiece piece }
    requires short { length piece.frame.atom.now ≤ most written }
    requires room { length (frame written piece.frame.atom.now) ≤ length room.old }
    ensures { HoldsBytes (frame written piece.entry.frame.atom.now) result room.old room.new }
{
    if piece.form == written {
        return put_bytes(piece.frame.bytes, room);
    }
    let atom = piece.frame.atom;
    let skip = put_length(written, atom.len(), room);
    skip + put_bytes(atom, &mut room[skip..])
}

/// The same for the frames of a cut merge.
fn put_frames(written: Form, cut: Cut<'_>, room: &mut [u8]) -> usize
    requires { (list : List (List ℕ)) × IsUnderWay [] cut list
        × (written ≡ written_in cut.form list) × (length (frames written list) ≤ length room.old) }
    ensures { (list : List (List ℕ)) × IsUnderWay [] cut.entry list
        × (written ≡ written_in cut.entry.form list)
        × HoldsBytes (frames written list) result room.old room.new }
{
    let mut cut = cut;
    let mut at = 0;
    while let Some(piece) = cut.take() {
        at += put_piece(written, piece, &mut room[at..]);
    }
    at
}

/// Writes the head of form two for `count` bytes of frames.
fn put_head(count: usize, room: &mut [u8])
    requires { head_len Two ≤ length room.old }
    ensures { HoldsBytes (head Two count) (head_len Two) room.old room.new }
{
    room[..MARK.len()].copy_from_slice(&MARK);
    room[MARK.len()..HEAD_LEN].copy_from_slice(&(count as u64).to_be_bytes());
}

/// Writes a cut merge at the beginning of the buffer, in the form that it is written in, and
/// answers how many bytes it has. The rest of the buffer stays.
pub(crate) fn fill(written: Form, cut: Cut<'_>, room: &mut [u8]) -> usize
    requires { (list : List (List ℕ)) × IsUnderWay [] cut list
        × (written ≡ written_in cut.form list) × (size_of cut.form list ≤ length room.old) }
    ensures { (list : List (List ℕ)) × IsUnderWay [] cut.entry list
        × HoldsBytes (bytes_of cut.entry.form list) result room.old room.new }
{
    match written {
        Form::One => put_frames(written, cut, room),
        Form::Two => {
            let count = put_frames(written, cut, &mut room[HEAD_LEN..]);
            put_head(count, room);
            HEAD_LEN + count
        }
    }
}
