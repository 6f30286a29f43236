//! Lists of atoms, whatever they hold.

ghost use Rattle.std.specs.Prelude.{◌≡◌, ◌+◌, ◌*◌, ◌^◌, ◌<◌, ◌≤◌, ◌↔◌, [], ◌∷◌, ◌++◌, length, take, IsTrue, IsSome, IfOk, IfSome, OnOk, OnErr, slice_get, slice_index, ℕ};
ghost use Rattle.std.specs.Ordering.{nat_cmp};
ghost use Rattle.std.specs.Option.{option_copied};
ghost use Rattle.context_model.specs.Atoms.{AreAtoms};
ghost use Rattle.context_model.specs.declared.Form.TheVariants.{Two};
ghost use Rattle.context_model.specs.Framing.{frames, has_long};
ghost use Rattle.context_model.specs.Orders.{Rises};
ghost use Rattle.context_model.specs.WithoutData.{without};
ghost use Rattle.atom_list.specs.Builder.{byte_room_for};

use crate::builder::Builder;
use crate::starts::{atom_at, keep_others};
use bytes::Bytes;
use context_model::LENGTH_MAX;
use outside::{ATOM_MAX, Memory};
use std::alloc::Global;
use std::marker::Model;

/// A list of atoms: byte strings of at most [`ATOM_MAX`] bytes each. Contracts see it as a list of
/// byte strings.
///
/// The atoms are in one buffer, which copies share.
#[derive(Debug, Drop)]
pub struct AtomList {
    pub(crate) alloc: Global,
    pub(crate) bytes: Bytes,
    /// Where the frame of each atom begins. A marker that a cut left has none, and begins after the
    /// end of every buffer.
    pub(crate) starts: Vec<u32>,
    /// The buffer begins with the frames of the first `laid` atoms, one after the other.
    pub(crate) laid: usize,
}

impl Model for AtomList {
    ghost use Rattle.std.specs.Prelude.{List, ℕ};
    ghost use Rattle.atom_list.specs.Starts.{atoms_at, IsFlat};

    ghost Value = { List (List ℕ) };

    ghost view = { λ list. atoms_at list.bytes list.starts.items };

    ghost invariant = { λ list. IsFlat list.bytes list.starts.items list.laid };
}

impl AtomList {
    /// The empty list. It takes no memory.
    pub fn new(alloc: Global) -> AtomList
        ensures { result ≡ [] }
    {
        AtomList {
            alloc,
            bytes: Bytes::new(),
            starts: Vec::new(alloc),
            laid: 0,
        }
    }

    /// How many atoms there are.
    pub fn len(&self) -> usize
        ensures len { result ≡ length self.now }
        ensures atoms { AreAtoms self.now }
        ensures light { length (frames Two self.now) < 2 ^ 32 }
        ensures few { result < 2 ^ 32 }
    {
        self.starts.len()
    }

    /// Whether there is no atom.
    pub fn is_empty(&self) -> bool
        ensures { IsTrue result ↔ (self.now ≡ []) }
    {
        self.starts.is_empty()
    }

    /// The atom at a place, `None` where there is none.
    pub fn get(&self, at: usize) -> Option<&[u8]>
        ensures found { IsSome result ↔ (at < length self.now) }
        ensures value { option_copied result ≡ slice_get self.now at }
        ensures short { IfSome result (λ atom. length atom.now ≤ ATOM_MAX) }
    {
        let start = self.starts.get(at)?;
        Some(atom_at(self.bytes.as_slice(), *start))
    }

    /// Whether an atom of the list is too long for form one. None is looked at where the buffer is
    /// no longer than such an atom.
    pub fn is_long(&self) -> bool
        ensures { result ≡ has_long self.now }
    {
        let bytes = self.bytes.as_slice();
        if bytes.len() <= LENGTH_MAX {
            return false;
        }
        for start in &self.starts {
            if LENGTH_MAX < atom_at(bytes, *start).len() {
                return true;
            }
        }
        false
    }

    /// Adds an atom at the end, in a new buffer. Where memory runs out, the list stays as it was.
    pub fn push(&mut self, atom: &[u8]) -> Result<(), Memory>
        requires { length atom.now ≤ ATOM_MAX }
        ensures ok { OnOk result (self.new ≡ self.old ++ atom.now ∷ []) }
        ensures err { OnErr result (self.new ≡ self.old) }
    {
        *self = self.with_one_more(atom)?;
        Ok(())
    }

    /// The list with one atom more.
    fn with_one_more(&self, atom: &[u8]) -> Result<AtomList, Memory>
        requires { length atom.now ≤ ATOM_MAX }
        ensures { IfOk result (λ made. made ≡ self.now ++ atom.now ∷ []) }
    {
        let room = self.room() + atom.len() + 3;
        let mut built = Builder::with_room(self.alloc, room, self.len() + 1)?;
        built.push_rest(self, 0);
        built.push(atom);
        built.finish()
    }

    /// Keeps the first `keep` atoms and puts a marker after them. It takes no memory, since at
    /// least one atom leaves before the marker comes, and gives back what the others took beside
    /// the buffer.
    pub fn cut_to_marker(&mut self, keep: usize)
        requires { keep < length self.old }
        ensures { self.new ≡ take keep self.old ++ [] ∷ [] }
    {
        self.starts.truncate(keep + 1);
        self.starts[keep] = u32::MAX;
        self.starts.shrink_to_fit();
        self.laid = self.laid.min(keep);
    }

    /// The same list again. The buffer isn't copied.
    pub fn copy(&self) -> Result<AtomList, Memory>
        ensures { IfOk result (λ made. made ≡ self.now) }
    {
        self.front(self.len())
    }

    /// The list of the first `keep` atoms. The buffer isn't copied.
    pub fn front(&self, keep: usize) -> Result<AtomList, Memory>
        requires { keep ≤ length self.now }
        ensures { IfOk result (λ made. made ≡ take keep self.now) }
    {
        let mut starts = Vec::with_capacity(self.alloc, keep)?;
        starts.extend_from_slice(&self.starts[..keep])?;
        Ok(AtomList {
            alloc: self.alloc,
            bytes: self.bytes.clone()?,
            starts,
            laid: self.laid.min(keep),
        })
    }

    /// Takes out the atoms at these places, which rise; all others stay, in order. It takes no
    /// memory, and goes over the list once.
    pub(crate) fn take_out(&mut self, gone: &[usize])
        requires rises { Rises nat_cmp gone.now }
        requires within { (k : ℕ) → k < length gone.now → slice_index gone.now k < length self.old }
        ensures { self.new ≡ without gone.now self.old }
    {
        let Some(first) = gone.first() else {
            return;
        };
        keep_others(&mut self.starts, gone);
        self.laid = self.laid.min(*first);
    }
}
