//! Lengths of atoms, in base 128 and as varints.

ghost use Rattle.std.specs.Prelude.{◌≡◌, ◌≤◌, ◌++◌, length, Some, IfOk, IfErr};
ghost use Rattle.context_model.specs.declared.Form.TheVariants.{Two};
ghost use Rattle.context_model.specs.Framing.{base_128};
ghost use Rattle.context_model.specs.Varints.{IsUnsignedAt};
ghost use Rattle.context_model.specs.WireFault.{wire_code, IsUnframed};
ghost use Rattle.wire_bytes.specs.Reading.{code_of};

use crate::reading::WireCode;
use context_model::LENGTH_MAX;
use lex_varint::{VarintFault, take_u64};
use outside::ATOM_MAX;

/// How many bytes a length has, in base 128 or as a varint.
#[tactic(auto, unfolding(context_model::specs::Framing::base_128))]
pub(crate) fn length_len(len: usize) -> usize
    requires { len ≤ ATOM_MAX }
    ensures len { result ≡ length (base_128 len) }
    ensures bound { result ≤ 3 }
{
    match len {
        0..128 => 1,
        128..16_384 => 2,
        _ => 3,
    }
}

/// The length in base 128 that the bytes begin with, and the bytes after it, or what is wrong with
/// the length.
#[tactic(auto, unfolding(context_model::specs::Framing::base_128, context_model::specs::WireFault::length_front, context_model::specs::WireFault::wire_code))]
pub(crate) fn front_length(bytes: &[u8]) -> Result<(usize, &[u8]), WireCode>
    ensures found { IfOk result (λ found. bytes.now ≡ base_128 found.0 ++ found.1.now) }
    ensures bound { IfOk result (λ found. found.0 ≤ LENGTH_MAX) }
    ensures fault { IfErr result (λ code. wire_code bytes.now ≡ Some (code_of code)) }
{
    match bytes {
        [a, rest @ ..] if *a < 128 => Ok((usize::from(*a), rest)),
        [_, 0, ..] => Err(WireCode::LongForm),
        [a, b, rest @ ..] if *b < 128 => Ok((usize::from(*a - 128) + 128 * usize::from(*b), rest)),
        [_, _, 0, ..] => Err(WireCode::LongForm),
        [a, b, c, rest @ ..] if *c < 4 => Ok((
            usize::from(*a - 128) + 128 * usize::from(*b - 128) + 16_384 * usize::from(*c),
            rest,
        )),
        [_, _, _, ..] => Err(WireCode::AtomTooLong),
        _ => Err(WireCode::CutLength),
    }
}

/// The length that the first varint says and how many bytes it has, or what is wrong with the
/// length.
pub(crate) fn front_varint(bytes: &[u8]) -> Result<(usize, usize), WireCode>
    ensures within { IfOk result (λ found. found.1 ≤ length bytes.now) }
    ensures taken { IfOk result (λ found. IsUnsignedAt bytes.now found.0 found.1) }
    ensures bound { IfOk result (λ found. found.0 ≤ ATOM_MAX) }
    ensures fault { IfErr result (λ code. IsUnframed Two bytes.now (code_of code)) }
{
    match take_u64(bytes) {
        Ok((len, count)) if len <= ATOM_MAX as u64 => Ok((len as usize, count)),
        Ok(_) => Err(WireCode::AtomTooLong),
        Err(VarintFault::LongForm) => Err(WireCode::LongForm),
        // No varint that nine bytes hold is out of range.
        Err(VarintFault::Cut | VarintFault::OutOfRange) => Err(WireCode::CutLength),
    }
}
