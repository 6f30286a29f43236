//! Frames of atoms in a vector that has room for them.

ghost use Rattle.std.specs.Prelude.{◌≡◌, ◌+◌, ◌≤◌, ◌++◌, length, take, vec_len, vec_capacity};
ghost use Rattle.context_model.specs.Framing.{base_128};

use outside::ATOM_MAX;

/// Appends the length of an atom in base 128, the least significant group first. It takes no
/// memory.
#[tactic(auto, unfolding(context_model::specs::Framing::base_128))]
pub(crate) fn put_length(bytes: &mut Vec<u8>, len: usize)
    requires len { len ≤ ATOM_MAX }
    requires room { vec_len bytes.old + 3 ≤ vec_capacity bytes.old }
    ensures items { bytes.new.items ≡ bytes.old.items ++ base_128 len }
    ensures capacity { vec_capacity bytes.new ≡ vec_capacity bytes.old }
{
    let low = (len % 128) as u8;
    if len < 128 {
        bytes.push_reserved(low);
    } else if len < 16_384 {
        bytes.push_reserved(low + 128);
        bytes.push_reserved((len / 128) as u8);
    } else {
        bytes.push_reserved(low + 128);
        bytes.push_reserved((len / 128 % 128) as u8 + 128);
        bytes.push_reserved((len / 16_384) as u8);
    }
}

/// The length of an atom in base 128, and then zeros.
#[tactic(auto, unfolding(context_model::specs::Framing::base_128))]
pub(crate) fn length_bytes(len: usize) -> [u8; 3]
    requires { len ≤ ATOM_MAX }
    ensures { take (length (base_128 len)) result ≡ base_128 len }
{
    let low = (len % 128) as u8;
    if len < 128 {
        [low, 0, 0]
    } else if len < 16_384 {
        [low + 128, (len / 128) as u8, 0]
    } else {
        [
            low + 128,
            (len / 128 % 128) as u8 + 128,
            (len / 16_384) as u8,
        ]
    }
}

/// Appends bytes for which there is room. It takes no memory.
pub(crate) fn put_bytes(bytes: &mut Vec<u8>, more: &[u8])
    requires { vec_len bytes.old + length more.now ≤ vec_capacity bytes.old }
    ensures items { bytes.new.items ≡ bytes.old.items ++ more.now }
    ensures capacity { vec_capacity bytes.old ≤ vec_capacity bytes.new }
{
    match bytes.extend_from_slice(more) {
        Ok(()) => {}
        // It fails only where there is no room.
        Err(_) => unreachable!(),
    }
}
