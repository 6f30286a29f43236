//! Counts of writers.

ghost use Rattle.std.specs.Prelude.{◌≡◌, ◌≤◌, ℕ, max, List, [], ◌∷◌, ◌++◌, length, sum_by, IfOk, OnOk, OnErr, slice_get};
ghost use Rattle.std.specs.Option.{option_map};
ghost use Rattle.context_model.specs.GreedyMerge.{AllBelow};
ghost use Rattle.context_model.specs.KeyedMerge.{Finds, IsUnion, keys_of};
ghost use Rattle.context_model.specs.Orders.{atom_cmp};
ghost use Rattle.counter_type.specs.Counts.{IsCounted, counts_joined};

use crate::entries::{copied_entries, join_entries};
use crate::keys::Keys;
use crate::lattice::Lattice;
use outside::{Memory, Octets};
use std::alloc::Global;
use std::cmp::Ordering;
use std::marker::Model;

/// The count of each of some writers. Contracts see it as the list of the writers with their
/// counts, in the byte order of the writers, each once. A join keeps a writer's greatest count.
#[derive(Debug, Drop)]
pub struct Counts {
    entries: Vec<(Octets, u64)>,
}

impl Model for Counts {
    ghost use Rattle.std.specs.Prelude.{ℕ, List};

    ghost Value = { List (List ℕ × ℕ) };

    ghost use Rattle.counter_type.specs.Counts.{IsCounted};

    ghost view = { λ counts. counts.entries.items };

    ghost invariant = { λ counts. IsCounted counts.entries.items };
}

impl Counts {
    /// No counts.
    pub fn new(alloc: Global) -> Counts
        ensures { result ≡ [] }
    {
        Counts {
            entries: Vec::new(alloc),
        }
    }

    /// The count of one writer alone.
    pub fn of(alloc: Global, writer: &[u8], count: u64) -> Result<Counts, Memory>
        ensures { IfOk result (λ made. made ≡ (writer.now, count) ∷ []) }
    {
        let writer = Octets::of(alloc, writer)?;
        let mut entries = Vec::new(alloc);
        entries.push((writer, count))?;
        Ok(Counts { entries })
    }

    /// The sum of all counts.
    pub fn total(&self) -> u128
        ensures { result ≡ sum_by (λ entry. entry.1) self.now }
    {
        let mut total = 0;
        for (_, count) in &self.entries {
            total += widened(*count);
        }
        total
    }

    /// The writer's count, `None` exactly where it has none.
    pub fn get(&self, writer: &[u8]) -> Option<u64>
        ensures { Finds self.now writer.now result }
    {
        let found = self
            .entries
            .binary_search_by(|(held, _)| held.as_slice().cmp(writer));
        match found {
            Ok(place) => Some(self.entries[place].1),
            Err(_) => None,
        }
    }

    /// How many writers there are.
    pub fn len(&self) -> usize
        ensures { result ≡ length self.now }
    {
        self.entries.len()
    }

    /// The writer that has `at` writers before it, with its count; `None` where there is none.
    pub fn nth(&self, at: usize) -> Option<(&[u8], u64)>
        ensures { option_map (λ e. (e.0.now, e.1)) result ≡ slice_get self.now at }
    {
        let (writer, count) = self.entries.get(at)?;
        Some((writer.as_slice(), *count))
    }

    /// Adds a writer, greater than each writer held, with its count. Where memory runs out, the
    /// counts stay unchanged.
    pub fn push(&mut self, writer: &[u8], count: u64) -> Result<(), Memory>
        requires { AllBelow atom_cmp (keys_of self.old) writer.now }
        ensures ok { OnOk result (self.new ≡ self.old ++ (writer.now, count) ∷ []) }
        ensures err { OnErr result (self.new ≡ self.old) }
    {
        let writer = Octets::of(*self.entries.allocator(), writer)?;
        self.entries.push((writer, count))?;
        Ok(())
    }
}

/// A count. A join keeps the greater one, and 0 says nothing.
impl Lattice for u64 {
    ghost use Rattle.std.specs.Prelude.{◌≡◌, max};
    ghost use Rattle.counter_type.specs.Counts.{FitsCount, count_laws};

    ghost proper = { FitsCount };

    ghost alike = { λ _ _. Unit {0} };

    ghost joined = { max };

    ghost bottom = { λ count. count ≡ 0 };

    ghost laws = { count_laws };

    fn join(&mut self, other: &u64) -> Result<(), Memory> {
        *self = (*self).max(*other);
        Ok(())
    }

    fn is_bottom(&self) -> bool {
        *self == 0
    }

    fn copy(&self) -> Result<u64, Memory> {
        Ok(*self)
    }
}

/// Writers, in byte order.
struct Writers;

impl Keys for Writers {
    ghost use Rattle.std.proofs.lemmas.Cmp.{nat_list_cmp_total};
    ghost use Rattle.std.proofs.lemmas.Map.Lookups.{exact_bytes};
    ghost use Rattle.context_model.specs.Orders.{atom_cmp};

    type Key = Octets;

    ghost fits = { λ _ _. Unit {0} };

    ghost order = { λ _. atom_cmp };

    ghost total = { λ _. nat_list_cmp_total };

    ghost exact = { λ _ k j _ _ tie. exact_bytes k j tie };

    fn compare(&self, a: &Octets, b: &Octets) -> Ordering {
        a.as_slice().cmp(b.as_slice())
    }

    fn copy_key(&self, key: &Octets) -> Result<Octets, Memory> {
        key.copy()
    }
}

impl Lattice for Counts {
    ghost use Rattle.std.specs.Prelude.{◌≡◌, []};
    ghost use Rattle.counter_type.specs.Counts.{IsCounted, counts_joined, counts_laws};

    ghost proper = { IsCounted };

    ghost alike = { λ _ _. Unit {0} };

    ghost joined = { counts_joined };

    ghost bottom = { λ counts. counts ≡ [] };

    ghost laws = { counts_laws };

    fn join(&mut self, other: &Counts) -> Result<(), Memory> {
        join_entries(&Writers, &mut self.entries, &other.entries)?;
        Ok(())
    }

    fn is_bottom(&self) -> bool {
        self.entries.is_empty()
    }

    fn copy(&self) -> Result<Counts, Memory> {
        let entries = copied_entries(*self.entries.allocator(), &Writers, &self.entries)?;
        Ok(Counts { entries })
    }
}

/// A join of counts is their union: the writers of both, and at a writer of both the greater count.
pub fn counts_join_is_union()
    ensures { (a b : List (List ℕ × ℕ)) → IsCounted a → IsCounted b
        → IsUnion max a b (counts_joined a b) }
{}

/// The count as a part of a total.
fn widened(count: u64) -> u128
    ensures value { result ≡ count }
    ensures bound { result ≤ 18446744073709551615 }
{
    u128::from(count)
}
