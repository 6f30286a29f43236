//! Sets of the values of a codec.

ghost use Rattle.std.specs.Prelude.{◌≡◌, ◌↔◌, ◌⊎◌, List, [], ◌∷◌, ◌++◌, length, slice_get, IsTrue, IfOk, OnOk, OnErr};
ghost use Rattle.std.specs.Option.{option_copied};
ghost use Rattle.context_model.specs.Orders.{IsIn};
ghost use Rattle.context_model.specs.GreedyMerge.{AllBelow};
ghost use Rattle.set_map_types.specs.SetsAndMaps.{Held, set_joined, set_proper, value_cmp};

use crate::codec_keys::CodecKeys;
use counter_type::Lattice;
use counter_type::entries::{copied_entries, join_entries, value_at};
use outside::Memory;
use scalar_types::Codec;
use std::alloc::Global;
use std::marker::Model;

/// A finite set of values of a codec. Contracts see it as its codec and the list of its values, in
/// the codec's order. Each value fits the codec. A join has the values of both; it copies what
/// comes, and moves what is there.
#[derive(Drop)]
#[derive_where(Debug; C, C::Value)]
pub struct SetOf<C: Codec> {
    codec: C,
    entries: Vec<(C::Value, ())>,
}

impl<C: Codec> Model for SetOf<C> {
    ghost use Rattle.context_model.specs.KeyedMerge.{keys_of};
    ghost use Rattle.set_map_types.specs.SetsAndMaps.{Held, IsSet};

    ghost Value = { Held C C.Value };

    ghost view = { λ set. record { codec = set.codec; items = keys_of set.entries.items } };

    ghost invariant = { λ set. IsSet (C.fits set.codec) (C.spelling set.codec) (keys_of set.entries.items) };
}

impl<C: Codec> SetOf<C> {
    /// The empty set.
    pub fn new(alloc: Global, codec: C) -> Result<SetOf<C>, Memory>
        ensures { IfOk result (λ set. (set.codec ≡ codec) × (set.items ≡ [])) }
    {
        Ok(SetOf {
            codec,
            entries: Vec::new(alloc),
        })
    }

    /// The set of one value, which fits the codec.
    pub fn of(alloc: Global, codec: C, value: C::Value) -> Result<SetOf<C>, Memory>
        requires { C.fits codec value }
        ensures { IfOk result (λ set. (set.codec ≡ codec) × (set.items ≡ value ∷ [])) }
    {
        let mut entries = Vec::new(alloc);
        entries.push((value, ()))?;
        Ok(SetOf { codec, entries })
    }

    /// The codec of the elements.
    pub fn codec(&self) -> &C
        ensures { result.now ≡ self.now.codec }
    {
        &self.codec
    }

    /// How many values there are.
    pub fn len(&self) -> usize
        ensures { result ≡ length self.now.items }
    {
        self.entries.len()
    }

    /// Whether the value, which fits the codec, is there.
    pub fn contains(&self, value: &C::Value) -> bool
        requires { C.fits self.now.codec value.now }
        ensures { IsTrue result ↔ IsIn value.now self.now.items }
    {
        value_at(&CodecKeys(&self.codec), &self.entries, value).is_some()
    }

    /// The value that has `at` values before it; `None` where there is none.
    pub fn get(&self, at: usize) -> Option<&C::Value>
        ensures { option_copied result ≡ slice_get self.now.items at }
    {
        let (value, _) = self.entries.get(at)?;
        Some(value)
    }

    /// Adds a value, which fits the codec and is greater than each value held. Where memory runs
    /// out, the set stays unchanged.
    pub fn push(&mut self, value: C::Value) -> Result<(), Memory>
        requires fit { C.fits self.old.codec value }
        requires greatest { AllBelow (value_cmp (C.spelling self.old.codec)) self.old.items value }
        ensures ok { OnOk result
            (self.new ≡ record { codec = self.old.codec; items = self.old.items ++ value ∷ [] }) }
        ensures err { OnErr result (self.new ≡ self.old) }
    {
        self.entries.push((value, ()))?;
        Ok(())
    }
}

impl<C: Codec> Lattice for SetOf<C> {
    ghost use Rattle.set_map_types.specs.SetsAndMaps.{HoldsNothing, SameCodec, set_joined, set_proper};
    ghost use Rattle.set_map_types.specs.SetAndMapLaws.{set_laws};

    ghost proper = { set_proper C.fits C.spelling };

    ghost alike = { SameCodec };

    ghost joined = { set_joined C.spelling };

    ghost bottom = { HoldsNothing };

    ghost laws = { set_laws C.fits C.spelling C.one_value };

    fn join(&mut self, other: &SetOf<C>) -> Result<(), Memory> {
        join_entries(&CodecKeys(&self.codec), &mut self.entries, &other.entries)?;
        Ok(())
    }

    fn is_bottom(&self) -> bool {
        self.entries.is_empty()
    }

    fn copy(&self) -> Result<SetOf<C>, Memory> {
        let codec = self.codec.copy_codec()?;
        let alloc = *self.entries.allocator();
        let entries = copied_entries(alloc, &CodecKeys(&self.codec), &self.entries)?;
        Ok(SetOf { codec, entries })
    }
}

/// A join of sets of one codec is their union: a value is in it exactly where it is in one of them.
pub fn set_join_is_union<C: Codec>()
    ensures { (s t : Held C C.Value) → set_proper C.fits C.spelling s
        → set_proper C.fits C.spelling t → s.codec ≡ t.codec → (v : C.Value)
        → IsIn v (set_joined C.spelling s t).items ↔ (IsIn v s.items ⊎ IsIn v t.items) }
{}
