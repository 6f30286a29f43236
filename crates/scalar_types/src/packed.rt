//! The fields of a struct, one after another.

ghost use Rattle.std.specs.Prelude.{◌≡◌, ℕ, List, ◌++◌, map, All, IfOk, OnOk, IsTrue, ◌↔◌};
ghost use Rattle.bag_model.specs.Scalars.{ArePlainsOf, packed_spelling};
ghost use Rattle.scalar_types.specs.Codec.{Spells, IsSpelled};
ghost use Rattle.scalar_types.specs.Scalars.{IsPlain, plain_of};

use crate::codec::TakeFault;
use crate::scalars::{Scalar, ScalarList};
use crate::word_codecs::WordCodec;
use bag_model::ScalarWord;
use outside::Memory;
use std::alloc::Global;

/// Whether there is one value for each word, which fits it.
pub fn fields_fit(words: &[ScalarWord], values: &[Scalar]) -> bool
    requires plain { All IsPlain values.now }
    ensures { IsTrue result ↔ ArePlainsOf words.now (map plain_of values.now) }
{
    if words.len() != values.len() {
        return false;
    }
    for (at, word) in words.iter().enumerate() {
        if !WordCodec::of(*word).fits(&values[at]) {
            return false;
        }
    }
    true
}

/// Appends the fields.
pub fn put_fields(words: &[ScalarWord], values: &[Scalar], into: &mut Vec<u8>) -> Result<(), Memory>
    requires plain { All IsPlain values.now }
    requires fits { ArePlainsOf words.now (map plain_of values.now) }
    ensures { OnOk result
        (into.new.items ≡ into.old.items
        ++ packed_spelling words.now (map plain_of values.now)) }
{
    for (at, word) in words.iter().enumerate() {
        WordCodec::of(*word).put_field(&values[at], into)?;
    }
    Ok(())
}

/// Whether the bytes are the fields of some values, and nothing more.
pub fn fields_spelled(words: &[ScalarWord], bytes: &[u8]) -> bool
    ensures { IsTrue result
        ↔ IsSpelled (ArePlainsOf words.now)
        (packed_spelling words.now) bytes.now }
{
    let mut rest = bytes;
    for word in words {
        match WordCodec::of(*word).skip_field(rest) {
            Some(after) => rest = after,
            None => return false,
        }
    }
    rest.is_empty()
}

/// The values whose fields the bytes are, with nothing left over.
pub fn take_fields(
    alloc: Global,
    words: &[ScalarWord],
    bytes: &[u8],
) -> Result<ScalarList, TakeFault>
    ensures taken { IfOk result
        (Spells (ArePlainsOf words.now)
        (packed_spelling words.now) bytes.now) }
    ensures refused { result ≡ Err TakeFault.NotSpelled
        → ¬ IsSpelled (ArePlainsOf words.now)
        (packed_spelling words.now) bytes.now }
{
    let mut values = ScalarList::new(alloc);
    let mut rest = bytes;
    for word in words {
        let (value, after) = WordCodec::of(*word).take_field(alloc, rest)?;
        values.push(value)?;
        rest = after;
    }
    if rest.is_empty() {
        Ok(values)
    } else {
        Err(TakeFault::NotSpelled)
    }
}
