//! Codecs of values that are spelled as they are: nothing, a truth value, a text, a byte string.

ghost use Rattle.std.specs.Prelude.{◌≡◌, [], ◌∷◌};
ghost use Rattle.bag_model.specs.Scalars.{truth_bytes};
ghost use Rattle.scalar_types.specs.Codec.{AlwaysFits};

use crate::codec::{Codec, TakeFault};
use crate::fronts::{Front, whole};
use outside::{Memory, Octets, Text};
use std::alloc::Global;
use std::cmp::Ordering;

/// The codec of `()`: its one value is spelled by no bytes.
#[derive(Clone, Copy, Debug, PartialEq, Eq)]
pub struct Unit;

impl Codec for Unit {
    ghost use Rattle.std.specs.Prelude.{[], refl};

    type Value = ();

    ghost fits = { λ _. AlwaysFits };

    ghost spelling = { λ _ _. [] };

    ghost one_value = { λ _ _ _ _ _ _. refl };

    fn fits(&self, _value: &()) -> bool {
        true
    }

    fn put(&self, _value: &(), _into: &mut Vec<u8>) -> Result<(), Memory> {
        Ok(())
    }

    fn spelled(&self, bytes: &[u8]) -> bool {
        bytes.is_empty()
    }

    fn take(&self, _alloc: Global, bytes: &[u8]) -> Result<(), TakeFault> {
        if bytes.is_empty() {
            Ok(())
        } else {
            Err(TakeFault::NotSpelled)
        }
    }

    fn compare(&self, _a: &(), _b: &()) -> Ordering {
        Ordering::Equal
    }

    fn copy(&self, _value: &()) -> Result<(), Memory> {
        Ok(())
    }

    fn copy_codec(&self) -> Result<Unit, Memory> {
        Ok(Unit)
    }
}

/// The codec of truth values: one byte, 0 for false and 1 for true.
#[derive(Clone, Copy, Debug, PartialEq, Eq)]
pub struct Flag;

impl Codec for Flag {
    ghost use Rattle.bag_model.specs.Scalars.{truth_bytes};
    ghost use Rattle.scalar_types.specs.OneCode.{code_one};
    ghost use Rattle.bag_model.proofs.NumberCodes.{truth_code};

    type Value = bool;

    ghost fits = { λ _. AlwaysFits };

    ghost spelling = { λ _ value. truth_bytes value };

    ghost one_value = { λ _. code_one truth_code };

    fn fits(&self, _value: &bool) -> bool {
        true
    }

    fn put(&self, value: &bool, into: &mut Vec<u8>) -> Result<(), Memory> {
        into.push(truth_byte(*value))?;
        Ok(())
    }

    fn spelled(&self, bytes: &[u8]) -> bool {
        whole(self, bytes).is_some()
    }

    fn take(&self, _alloc: Global, bytes: &[u8]) -> Result<bool, TakeFault> {
        whole(self, bytes).ok_or(TakeFault::NotSpelled)
    }

    fn compare(&self, a: &bool, b: &bool) -> Ordering {
        a.cmp(b)
    }

    fn copy(&self, value: &bool) -> Result<bool, Memory> {
        Ok(*value)
    }

    fn copy_codec(&self) -> Result<Flag, Memory> {
        Ok(Flag)
    }
}

/// The byte of a truth value.
fn truth_byte(truth: bool) -> u8
    ensures { result ∷ [] ≡ truth_bytes truth }
{
    if truth { 1 } else { 0 }
}

impl Front for Flag {
    ghost use Rattle.bag_model.specs.Scalars.{truth_bytes};
    ghost use Rattle.bag_model.proofs.Codes.{code_rest};
    ghost use Rattle.bag_model.proofs.NumberCodes.{truth_code};

    type Value = bool;

    ghost fits = { λ _. AlwaysFits };

    ghost spelling = { λ _ value. truth_bytes value };

    ghost one_rest = { λ _. code_rest truth_code };

    fn front<'a>(&self, bytes: &'a [u8]) -> Option<(bool, &'a [u8])> {
        match bytes {
            [0, rest @ ..] => Some((false, rest)),
            [1, rest @ ..] => Some((true, rest)),
            _ => None,
        }
    }
}

/// The codec of texts: the bytes of their UTF-8.
#[derive(Clone, Copy, Debug, PartialEq, Eq)]
pub struct Utf8;

impl Utf8 {
    ghost use Rattle.std.specs.Prelude.{◌≡◌, IsUtf8, IfOk};
    ghost use Rattle.scalar_types.specs.Codec.{Spells, IsSpelled};

    /// The text with these bytes, which aren't copied.
    pub(crate) fn take_owned(&self, bytes: Vec<u8>) -> Result<Text, TakeFault>
        ensures taken { IfOk result (Spells IsUtf8 (λ text. text) bytes.items) }
        ensures refused { result ≡ Err TakeFault.NotSpelled
            → ¬ IsSpelled IsUtf8 (λ text. text) bytes.items }
    {
        match String::from_utf8(bytes) {
            Ok(text) => Ok(Text::from_string(text)?),
            Err(_) => Err(TakeFault::NotSpelled),
        }
    }
}

impl Codec for Utf8 {
    ghost use Rattle.std.specs.Prelude.{IsUtf8};

    type Value = Text;

    ghost fits = { λ _ value. IsUtf8 value };

    ghost spelling = { λ _ value. value };

    ghost one_value = { λ _ _ _ _ _ same. same };

    fn fits(&self, value: &Text) -> bool {
        // for the proof: it tells that the text is UTF-8, as each text is
        let _utf8 = value.as_str();
        true
    }

    fn put(&self, value: &Text, into: &mut Vec<u8>) -> Result<(), Memory> {
        into.extend_from_slice(value.as_str().as_bytes())?;
        Ok(())
    }

    fn spelled(&self, bytes: &[u8]) -> bool {
        std::str::from_utf8(bytes).is_ok()
    }

    fn take(&self, alloc: Global, bytes: &[u8]) -> Result<Text, TakeFault> {
        match std::str::from_utf8(bytes) {
            Ok(text) => Ok(Text::of(alloc, text)?),
            Err(_) => Err(TakeFault::NotSpelled),
        }
    }

    fn compare(&self, a: &Text, b: &Text) -> Ordering {
        a.as_str().as_bytes().cmp(b.as_str().as_bytes())
    }

    fn copy(&self, value: &Text) -> Result<Text, Memory> {
        value.copy()
    }

    fn copy_codec(&self) -> Result<Utf8, Memory> {
        Ok(Utf8)
    }
}

/// The codec of byte strings: the bytes as they are.
#[derive(Clone, Copy, Debug, PartialEq, Eq)]
pub struct Raw;

impl Codec for Raw {
    type Value = Octets;

    ghost fits = { λ _. AlwaysFits };

    ghost spelling = { λ _ value. value };

    ghost one_value = { λ _ _ _ _ _ same. same };

    fn fits(&self, _value: &Octets) -> bool {
        true
    }

    fn put(&self, value: &Octets, into: &mut Vec<u8>) -> Result<(), Memory> {
        into.extend_from_slice(value.as_slice())?;
        Ok(())
    }

    fn spelled(&self, _bytes: &[u8]) -> bool {
        true
    }

    fn take(&self, alloc: Global, bytes: &[u8]) -> Result<Octets, TakeFault> {
        Ok(Octets::of(alloc, bytes)?)
    }

    fn compare(&self, a: &Octets, b: &Octets) -> Ordering {
        a.as_slice().cmp(b.as_slice())
    }

    fn copy(&self, value: &Octets) -> Result<Octets, Memory> {
        value.copy()
    }

    fn copy_codec(&self) -> Result<Raw, Memory> {
        Ok(Raw)
    }
}
