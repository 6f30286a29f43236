//! The atoms of a list, one by one.

ghost use Rattle.std.specs.Prelude.{◌≡◌};

use crate::lists::AtomList;
use crate::starts::atom_at;
use std::marker::Model;
use std::slice::Iter;

/// The atoms of a list that are left to go over. Contracts see it as their list.
#[derive(Debug, Drop)]
pub struct Atoms<'a> {
    bytes: &'a [u8],
    starts: Iter<'a, u32>,
}

impl<'a> Model for Atoms<'a> {
    ghost use Rattle.std.specs.Prelude.{List, ℕ};
    ghost use Rattle.std.specs.Slice.Iter.{iter_rest};
    ghost use Rattle.atom_list.specs.Starts.{atoms_at, AreStarts};

    ghost Value = { List (List ℕ) };

    ghost view = { λ atoms. atoms_at atoms.bytes.now (iter_rest atoms.starts) };

    ghost invariant = { λ atoms. AreStarts atoms.bytes.now (iter_rest atoms.starts) };
}

impl AtomList {
    /// The atoms, from the first to the last.
    pub fn iter(&self) -> Atoms<'_>
        ensures { result ≡ self.now }
    {
        Atoms {
            bytes: self.bytes.as_slice(),
            starts: self.starts.iter(),
        }
    }
}

impl<'a> Iterator for Atoms<'a> {
    type Item = &'a [u8];

    ghost use Rattle.std.specs.Iterator.{YieldsFirstBy, item_count};

    ghost next_gives = { YieldsFirstBy (λ atom. atom.now) (λ atoms. atoms) };

    ghost remaining = { item_count (λ atoms. atoms) };

    fn next(&mut self) -> Option<&'a [u8]> {
        let start = self.starts.next()?;
        Some(atom_at(self.bytes, *start))
    }
}
