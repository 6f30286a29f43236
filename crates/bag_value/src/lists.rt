//! Lists of values, and of keys with their values.

ghost use Rattle.std.specs.Prelude.{◌≡◌, ◌↔◌, ◌++◌, [], ◌∷◌, length, map, slice_get, IsTrue, OnOk, OnErr};
ghost use Rattle.std.specs.Option.{option_map};
ghost use Rattle.context_model.specs.KeyedMerge.{Finds, keys_of};
ghost use Rattle.context_model.specs.GreedyMerge.{AllBelow};
ghost use Rattle.bag_model.specs.Joins.{AreBottom, AreProper, Proper};
ghost use Rattle.bag_model.specs.Scalars.{scalar_cmp};
ghost use Rattle.bag_model.specs.Values.{values_list, pairs, no_entry, no_value};
ghost use Rattle.bag_model.specs.Values as model;
ghost use Rattle.scalar_types.specs.Scalars.{value_of};
ghost use Rattle.bag_value.specs.Vals.{pair_of, plain};

use crate::vals::Val;
use outside::Memory;
use scalar_types::Scalar;
use std::alloc::Global;
use std::marker::Model;

/// The values of a bag's fields, in the order of the fields.
#[cycle(val)]
#[derive(Debug, Drop)]
pub struct Vals {
    pub(crate) items: Vec<Val>,
}

impl Model for Vals {
    ghost use Rattle.bag_model.specs.Values.{Values, value_count_of_values};
    ghost use Rattle.bag_model.specs.ValueCode.{values_code};

    ghost Value = { Values };

    ghost coded = { values_code };

    ghost use Rattle.bag_model.specs.Joins.{AreProper};
    ghost use Rattle.bag_value.specs.Vals.{plain_values};

    ghost view = { λ list. plain_values list.items.items };

    ghost invariant = { λ list. AreProper (plain_values list.items.items) };

    ghost size = { value_count_of_values };

    ghost use Rattle.bag_value.specs.Lists.{values_fall};
    ghost use Rattle.std.proofs.Common.{arith};

    ghost size_decreases = { λ list proper. omega (arith, values_fall list.items.items) };
}

/// A key with its value.
#[cycle(val)]
#[derive(Debug, Drop)]
pub struct Entry {
    pub key: Scalar,
    pub value: Val,
}

/// Keys with their values, in the order of the keys.
#[cycle(val)]
#[derive(Debug, Drop)]
pub struct Entries {
    pub(crate) items: Vec<Entry>,
}

impl Model for Entries {
    ghost use Rattle.bag_model.specs.Values.{Entries, value_count_of_entries};
    ghost use Rattle.bag_model.specs.ValueCode.{entries_code};

    ghost Value = { Entries };

    ghost coded = { entries_code };

    ghost use Rattle.bag_model.specs.Joins.{Proper};
    ghost use Rattle.bag_model.specs.Values as model;
    ghost use Rattle.bag_value.specs.Vals.{plain_entries};

    ghost view = { λ list. plain_entries list.items.items };

    ghost invariant = { λ list. Proper (model.Value.Map (plain_entries list.items.items)) };

    ghost size = { value_count_of_entries };

    ghost use Rattle.bag_value.specs.Lists.{entries_fall};
    ghost use Rattle.std.proofs.Common.{arith};

    ghost size_decreases = { λ list proper. omega (arith, entries_fall list.items.items) };
}

impl Vals {
    /// No values. It takes no memory.
    pub fn new(alloc: Global) -> Vals
        ensures { result ≡ no_value }
    {
        Vals {
            items: Vec::new(alloc),
        }
    }

    /// How many values there are.
    #[tactic(auto, using(crate::proofs::ListLaws::length_values))]
    pub fn len(&self) -> usize
        ensures { result ≡ length (values_list self.now) }
    {
        self.items.len()
    }

    /// Whether there is no value.
    pub fn is_empty(&self) -> bool
        ensures { IsTrue result ↔ (self.now ≡ no_value) }
    {
        self.items.is_empty()
    }

    /// The value at this place, from 0 on; `None` exactly where there is none.
    #[tactic(auto, using(crate::proofs::ListLaws::get_value))]
    pub fn get(&self, at: usize) -> Option<&Val>
        ensures { option_map (λ found. plain found.now) result
            ≡ slice_get (values_list self.now) at }
    {
        if at < self.items.len() {
            Some(&self.items[at])
        } else {
            None
        }
    }

    /// The values in order.
    #[tactic(auto, using(crate::proofs::ListLaws::list_values))]
    pub fn as_slice(&self) -> &[Val]
        ensures { map plain result.now ≡ values_list self.now }
    {
        self.items.as_slice()
    }

    /// Adds a value at the end. Where memory runs out, the list stays unchanged.
    pub fn push(&mut self, value: Val) -> Result<(), Memory>
        ensures ok { OnOk result (values_list self.new ≡ values_list self.old ++ plain value ∷ []) }
        ensures err { OnErr result (self.new ≡ self.old) }
    {
        value.known();
        self.items.push(value)?;
        Ok(())
    }

    /// Tells that all values are in order, as those of every list are. It does nothing.
    pub(crate) fn known(&self)
        ensures { AreProper self.now }
    {
        let _ = &self.items;
    }

    /// Whether no value says anything.
    #[cycle(bottom)]
    pub(crate) fn say_nothing(&self) -> bool
        ensures { IsTrue result ↔ AreBottom self.now }
    {
        for value in &self.items {
            if !value.says_nothing() {
                return false;
            }
        }
        true
    }
}

impl Entries {
    /// No keys. It takes no memory.
    pub fn new(alloc: Global) -> Entries
        ensures { result ≡ no_entry }
    {
        Entries {
            items: Vec::new(alloc),
        }
    }

    /// How many keys there are.
    #[tactic(auto, using(crate::proofs::ListLaws::length_entries))]
    pub fn len(&self) -> usize
        ensures { result ≡ length (pairs self.now) }
    {
        self.items.len()
    }

    /// Whether there is no key.
    pub fn is_empty(&self) -> bool
        ensures { IsTrue result ↔ (self.now ≡ no_entry) }
    {
        self.items.is_empty()
    }

    /// The key that has `at` keys before it, with its value; `None` exactly where there is none.
    #[tactic(auto, using(crate::proofs::ListLaws::get_entry))]
    pub fn get(&self, at: usize) -> Option<&Entry>
        ensures { option_map (λ found. pair_of found.now) result ≡ slice_get (pairs self.now) at }
    {
        if at < self.items.len() {
            Some(&self.items[at])
        } else {
            None
        }
    }

    /// The value at a key; `None` exactly where there is no such key.
    pub fn find(&self, key: &Scalar) -> Option<&Val>
        ensures { Finds (pairs self.now) (value_of key.now)
            (option_map (λ found. plain found.now) result) }
    {
        let found = self.items.binary_search_by(|entry| entry.key.order(key));
        match found {
            Ok(place) => Some(&self.items[place].value),
            Err(_) => None,
        }
    }

    /// The keys in order, each with its value.
    #[tactic(auto, using(crate::proofs::ListLaws::pairs_plain))]
    pub fn as_slice(&self) -> &[Entry]
        ensures { map pair_of result.now ≡ pairs self.now }
    {
        self.items.as_slice()
    }

    /// Adds a key after all that are there, with its value. Where memory runs out, the list stays
    /// unchanged.
    pub fn push(&mut self, entry: Entry) -> Result<(), Memory>
        requires { AllBelow scalar_cmp (keys_of (pairs self.old)) (value_of entry.key) }
        ensures ok { OnOk result (pairs self.new ≡ pairs self.old ++ pair_of entry ∷ []) }
        ensures err { OnErr result (self.new ≡ self.old) }
    {
        entry.value.known();
        self.items.push(entry)?;
        Ok(())
    }

    /// Tells that the keys and all values are in order, as those of every list are. It does
    /// nothing.
    pub(crate) fn known(&self)
        ensures { Proper (model.Value.Map self.now) }
    {
        let _ = &self.items;
    }
}
