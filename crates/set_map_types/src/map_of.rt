//! Maps from the values of a codec.

ghost use Rattle.std.specs.Prelude.{◌≡◌, ◌↔◌, List, [], ◌∷◌, length, IsTrue, IfOk};
ghost use Rattle.std.specs.Option.{option_copied};
ghost use Rattle.context_model.specs.Orders.{IsIn};
ghost use Rattle.context_model.specs.KeyedMerge.{Finds, IsUnion, keys_of};
ghost use Rattle.set_map_types.specs.SetsAndMaps.{Held, map_joined, map_proper};

use crate::codec_keys::CodecKeys;
use counter_type::Lattice;
use counter_type::entries::{copied_entries, join_entries, value_at};
use outside::Memory;
use scalar_types::Codec;
use std::alloc::Global;
use std::marker::Model;

/// A finite map from values of a codec to values that are joined. Contracts see it as its codec and
/// the list of its entries, each key with its value, in the codec's order of the keys. Each key
/// fits the codec. A join has the keys of both, and at a common key the join of the two values. It
/// copies what comes and moves the keys that are there; at a common key it joins the coming value
/// to a copy of the one that is there.
#[derive(Drop)]
#[derive_where(Debug; C, C::Value, L)]
pub struct MapOf<C: Codec, L: Lattice> {
    codec: C,
    entries: Vec<(C::Value, L)>,
}

impl<C: Codec, L: Lattice> Model for MapOf<C, L> {
    ghost use Rattle.set_map_types.specs.SetsAndMaps.{Held, IsMap};

    ghost Value = { Held C (C.Value × L) };

    ghost view = { λ map. record { codec = map.codec; items = map.entries.items } };

    ghost invariant = { λ map. IsMap (C.fits map.codec) (C.spelling map.codec) L.proper map.entries.items };
}

impl<C: Codec, L: Lattice> MapOf<C, L> {
    /// The map without keys.
    pub fn new(alloc: Global, codec: C) -> Result<MapOf<C, L>, Memory>
        ensures { IfOk result (λ map. (map.codec ≡ codec) × (map.items ≡ [])) }
    {
        Ok(MapOf {
            codec,
            entries: Vec::new(alloc),
        })
    }

    /// The map of one key, which fits the codec.
    pub fn of(alloc: Global, codec: C, key: C::Value, value: L) -> Result<MapOf<C, L>, Memory>
        requires { C.fits codec key }
        ensures { IfOk result (λ map. (map.codec ≡ codec) × (map.items ≡ (key, value) ∷ [])) }
    {
        // for the proof: it tells that the value is proper
        let _ = value.is_bottom();
        let mut entries = Vec::new(alloc);
        entries.push((key, value))?;
        Ok(MapOf { codec, entries })
    }

    /// The codec of the keys.
    pub fn codec(&self) -> &C
        ensures { result.now ≡ self.now.codec }
    {
        &self.codec
    }

    /// How many keys there are.
    pub fn len(&self) -> usize
        ensures { result ≡ length self.now.items }
    {
        self.entries.len()
    }

    /// Whether the key, which fits the codec, is there.
    pub fn contains(&self, key: &C::Value) -> bool
        requires { C.fits self.now.codec key.now }
        ensures { IsTrue result ↔ IsIn key.now (keys_of self.now.items) }
    {
        self.value(key).is_some()
    }

    /// The value at a key, which fits the codec; `None` exactly where the key isn't there.
    pub fn value(&self, key: &C::Value) -> Option<&L>
        requires { C.fits self.now.codec key.now }
        ensures { Finds self.now.items key.now (option_copied result) }
    {
        value_at(&CodecKeys(&self.codec), &self.entries, key)
    }
}

impl<C: Codec, L: Lattice> Lattice for MapOf<C, L> {
    ghost use Rattle.set_map_types.specs.SetsAndMaps.{HoldsNothing, MapAlike, map_joined, map_proper};
    ghost use Rattle.set_map_types.specs.SetAndMapLaws.{map_laws};

    ghost proper = { map_proper C.fits C.spelling L.proper };

    ghost alike = { MapAlike L.alike };

    ghost joined = { map_joined C.spelling L.joined };

    ghost bottom = { HoldsNothing };

    ghost laws = { map_laws C.fits C.spelling C.one_value L.proper L.alike L.joined L.bottom L.laws };

    fn join(&mut self, other: &MapOf<C, L>) -> Result<(), Memory> {
        join_entries(&CodecKeys(&self.codec), &mut self.entries, &other.entries)?;
        Ok(())
    }

    fn is_bottom(&self) -> bool {
        self.entries.is_empty()
    }

    fn copy(&self) -> Result<MapOf<C, L>, Memory> {
        let codec = self.codec.copy_codec()?;
        let alloc = *self.entries.allocator();
        let entries = copied_entries(alloc, &CodecKeys(&self.codec), &self.entries)?;
        Ok(MapOf { codec, entries })
    }
}

/// A join of maps of one codec is their union: the keys of both, and at a common key the join of
/// both values.
pub fn map_join_is_union<C: Codec, L: Lattice>()
    ensures { (s t : Held C (C.Value × L)) → map_proper C.fits C.spelling L.proper s
        → map_proper C.fits C.spelling L.proper t → s.codec ≡ t.codec
        → IsUnion L.joined s.items t.items (map_joined C.spelling L.joined s t).items }
{}
