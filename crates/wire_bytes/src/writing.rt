//! The bytes of a list, and how many they are.

ghost use Rattle.std.specs.Prelude.{◌≡◌, ◌+◌, ◌^◌, ◌<◌, ◌≤◌, ◌++◌, length, take, IfOk, OnOk};
ghost use Rattle.context_model.specs.declared.Form.{Form};
ghost use Rattle.context_model.specs.declared.Form.TheVariants.{One, Two};
ghost use Rattle.context_model.specs.Framing.{frame, frames, has_long, written_in, bytes_in, bytes_of, size_of, offset_of};
ghost use Rattle.atom_list.specs.Builder.{byte_room_for};

use crate::heads::MARK;
use crate::lengths::length_len;
use atom_list::{AtomList, Builder};
use context_model::{Form, LENGTH_MAX};
use lex_varint::put_u64;
use outside::{ATOM_MAX, Memory};
use std::alloc::Global;

/// How many bytes an atom has with its length: as many in form two as in form one.
pub fn frame_len(atom: &[u8]) -> usize
    requires { length atom.now ≤ ATOM_MAX }
    ensures one { result ≡ length (frame One atom.now) }
    ensures two { result ≡ length (frame Two atom.now) }
    ensures bound { result ≤ length atom.now + 3 }
{
    length_len(atom.len()) + atom.len()
}

/// The form in which a list is written where this one is asked for.
fn written_in(form: Form, list: &AtomList) -> Form
    ensures { result ≡ written_in form list.now }
{
    match form {
        Form::One if !list.is_long() => Form::One,
        _ => Form::Two,
    }
}

/// How many bytes the first `at` atoms have with their lengths, in either form. None but the last
/// of them is looked at where nothing was cut from among them.
pub(crate) fn frames_before(list: &AtomList, at: usize) -> u128
    requires { at ≤ length list.now }
    ensures frames { (width : Form) → result ≡ length (frames width (take at list.now)) }
    ensures bound { result < 2 ^ 32 }
{
    // It says that the frames of a list are no more than a buffer may have.
    let _count = list.len();
    if let Some(bytes) = list.framed_front(at) {
        return bytes.len() as u128;
    }
    let mut total: u128 = 0;
    for i in 0..at {
        total += frame_len(list.get(i).unwrap()) as u128;
    }
    total
}

/// How many of the bytes of a list come before the atom at a place: those of the head, and of the
/// first `at` atoms. It isn't the size of these, which may be written without a head. It takes no
/// memory.
pub fn offset(form: Form, list: &AtomList, at: usize) -> u128
    requires { at ≤ length list.now }
    ensures { result ≡ offset_of form list.now at }
{
    written_in(form, list).head_len() as u128 + frames_before(list, at)
}

/// How many bytes the atoms of a list have with their lengths, in either form. None is looked at
/// where nothing was cut from the list.
fn frames_len(list: &AtomList) -> u128
    ensures frames { (width : Form) → result ≡ length (frames width list.now) }
    ensures bound { result < 2 ^ 32 }
{
    let count = list.len();
    match list.framed() {
        Some(bytes) => bytes.len() as u128,
        None => frames_before(list, count),
    }
}

/// How many bytes a list has where this form is asked for. It takes no memory.
pub fn size(form: Form, list: &AtomList) -> u128
    ensures { result ≡ size_of form list.now }
{
    written_in(form, list).head_len() as u128 + frames_len(list)
}

/// The bytes of a list where this form is asked for: in form two, if an atom is too long for form
/// one.
pub fn write(alloc: Global, form: Form, list: &AtomList) -> Result<Vec<u8>, Memory>
    ensures { IfOk result (λ bytes. bytes.items ≡ bytes_of form list.now) }
{
    match form {
        Form::One => write_one(alloc, list),
        Form::Two => write_two(alloc, list),
    }
}

/// The bytes of a list where form one is asked for, as they are in its buffer if nothing was cut
/// from it.
fn write_one(alloc: Global, list: &AtomList) -> Result<Vec<u8>, Memory>
    ensures { IfOk result (λ bytes. bytes.items ≡ bytes_of One list.now) }
{
    match list.framed() {
        Some(_) if list.is_long() => write_two(alloc, list),
        Some(bytes) => Ok(Vec::from_slice(alloc, bytes)?),
        None => write_pieces(alloc, list),
    }
}

/// Whether an atom is too long for form one, of a list that takes at most this room. None is looked
/// at where all together are no longer than one may be.
fn is_long(list: &AtomList, room: usize) -> bool
    requires { byte_room_for list.now ≤ room }
    ensures { result ≡ has_long list.now }
{
    LENGTH_MAX < room - 3 * list.len() && list.is_long()
}

/// The bytes of a list where form one is asked for, put together from what is left in its buffer.
fn write_pieces(alloc: Global, list: &AtomList) -> Result<Vec<u8>, Memory>
    ensures { IfOk result (λ bytes. bytes.items ≡ bytes_of One list.now) }
{
    let room = list.room();
    if is_long(list, room) {
        return write_two(alloc, list);
    }
    let mut built = Builder::with_room(alloc, room, list.len())?;
    built.push_rest(list, 0);
    Ok(built.into_bytes())
}

/// The bytes of a list in form two.
fn write_two(alloc: Global, list: &AtomList) -> Result<Vec<u8>, Memory>
    ensures { IfOk result (λ bytes. bytes.items ≡ bytes_in Two list.now) }
{
    let count = frames_len(list) as usize;
    let mut bytes = Vec::with_capacity(alloc, Form::Two.head_len() + count)?;
    bytes.extend_from_slice(&MARK)?;
    bytes.extend_from_slice(&(count as u64).to_be_bytes())?;
    for i in 0..list.len() {
        put_frame(&mut bytes, list.get(i).unwrap())?;
    }
    Ok(bytes)
}

/// Appends the length of an atom as a varint, and then the atom.
fn put_frame(bytes: &mut Vec<u8>, atom: &[u8]) -> Result<(), Memory>
    ensures { OnOk result (bytes.new.items ≡ bytes.old.items ++ frame Two atom.now) }
{
    bytes.extend_from_slice(put_u64(atom.len() as u64).as_slice())?;
    bytes.extend_from_slice(atom)?;
    Ok(())
}
