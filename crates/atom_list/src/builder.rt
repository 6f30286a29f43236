//! Lists that are built atom by atom in room that was taken first.

ghost use Rattle.std.specs.Prelude.{◌≡◌, ℕ, List, ◌+◌, ◌<◌, ◌≤◌, [], ◌∷◌, ◌++◌, length, drop, slice_range, IfOk, OnOk};
ghost use Rattle.context_model.specs.declared.Form.TheVariants.{One};
ghost use Rattle.context_model.specs.Framing.{frames};
ghost use Rattle.atom_list.specs.Builder.{byte_room_for, run_room, AddsPiece};
ghost use Rattle.atom_list.specs.Starts.{IsPieceOf};

use crate::lengths::{put_bytes, put_length};
use crate::lists::AtomList;
use crate::starts::put_moved;
use bytes::Bytes;
use outside::{ATOM_MAX, Memory};
use std::alloc::Global;
use std::marker::Model;

/// The most bytes of a buffer.
pub(crate) const BUFFER_MAX: usize = 0xffff_ffff;

/// A list in the making. Contracts see it as the list, the room for bytes and the room for atoms:
/// an atom takes its own bytes and at most three of its length.
#[derive(Debug, Drop)]
pub struct Builder {
    alloc: Global,
    bytes: Vec<u8>,
    starts: Vec<u32>,
}

impl Model for Builder {
    ghost use Rattle.std.specs.Prelude.{◌-◌, length, vec_capacity, min};
    ghost use Rattle.atom_list.specs.Starts.{atoms_at};
    ghost use Rattle.atom_list.specs.Builder.{Built, IsBuilt};
    ghost use Rattle.atom_list.specs.declared.builder.TheConstants.{BUFFER_MAX};

    ghost Value = { Built };

    ghost view = { λ b. record {
      atoms = atoms_at b.bytes.items b.starts.items;
      byte_room = min (vec_capacity b.bytes) BUFFER_MAX - length b.bytes.items;
      atom_room = vec_capacity b.starts - length b.starts.items;
    } };

    ghost invariant = { λ b. IsBuilt b.bytes.items b.starts.items };
}

impl Builder {
    /// The empty list with room for `bytes` bytes and `atoms` atoms. A buffer holds fewer than
    /// 2 ^ 32 bytes: for more there is no memory.
    pub fn with_room(alloc: Global, bytes: usize, atoms: usize) -> Result<Builder, Memory>
        ensures atoms { IfOk result (λ built. built.atoms ≡ []) }
        ensures byte_room { IfOk result (λ built. bytes ≤ built.byte_room) }
        ensures atom_room { IfOk result (λ built. atoms ≤ built.atom_room) }
    {
        if BUFFER_MAX < bytes {
            return Err(Memory);
        }
        Ok(Builder {
            alloc,
            bytes: Vec::with_capacity(alloc, bytes)?,
            starts: Vec::with_capacity(alloc, atoms)?,
        })
    }

    /// Takes room for `bytes` more bytes and `atoms` more atoms. Where there is too little room, it
    /// takes about as much again as is there, so that a list grows in few turns. A buffer holds
    /// fewer than 2 ^ 32 bytes: for more there is no memory. Room that is there stays.
    pub fn reserve(&mut self, bytes: usize, atoms: usize) -> Result<(), Memory>
        ensures atoms { self.new.atoms ≡ self.old.atoms }
        ensures kept_bytes { self.old.byte_room ≤ self.new.byte_room }
        ensures kept_atoms { self.old.atom_room ≤ self.new.atom_room }
        ensures byte_room { OnOk result (bytes ≤ self.new.byte_room) }
        ensures atom_room { OnOk result (atoms ≤ self.new.atom_room) }
    {
        if BUFFER_MAX - self.bytes.len() < bytes {
            return Err(Memory);
        }
        self.bytes.reserve(bytes)?;
        self.starts.reserve(atoms)?;
        Ok(())
    }

    /// Adds an atom at the end. It takes no memory.
    pub fn push(&mut self, atom: &[u8])
        requires short { length atom.now ≤ ATOM_MAX }
        requires byte_room { length atom.now + 3 ≤ self.old.byte_room }
        requires atom_room { 1 ≤ self.old.atom_room }
        ensures atoms { self.new.atoms ≡ self.old.atoms ++ atom.now ∷ [] }
        ensures byte_room { self.old.byte_room ≤ self.new.byte_room + (length atom.now + 3) }
        ensures atom_room { self.new.atom_room + 1 ≡ self.old.atom_room }
    {
        self.starts.push_reserved(self.bytes.len() as u32);
        put_length(&mut self.bytes, atom.len());
        put_bytes(&mut self.bytes, atom);
    }

    /// Adds frames that follow one another, with their starts in a buffer where they begin at `at`.
    /// It takes no memory.
    fn push_piece(&mut self, piece: &[u8], at: u32, starts: &[u32])
        requires piece { (list : List (List ℕ)) × IsPieceOf piece.now at starts.now list }
        requires byte_room { length piece.now ≤ self.old.byte_room }
        requires atom_room { length starts.now ≤ self.old.atom_room }
        ensures atoms { AddsPiece piece.now at starts.now self.old.atoms self.new.atoms }
        ensures byte_room { self.old.byte_room ≤ self.new.byte_room + length piece.now }
        ensures atom_room { self.new.atom_room + length starts.now ≡ self.old.atom_room }
    {
        let to = self.bytes.len() as u32;
        put_bytes(&mut self.bytes, piece);
        put_moved(&mut self.starts, starts, at, to);
    }

    /// Adds the atoms of a list from one place to another, those whose frames follow one another as
    /// one piece. It takes no memory.
    pub fn push_run(&mut self, list: &AtomList, from: usize, to: usize)
        requires order { from ≤ to }
        requires within { to ≤ length list.now }
        requires byte_room { run_room list.now from to ≤ self.old.byte_room }
        requires atom_room { to ≤ from + self.old.atom_room }
        ensures atoms { self.new.atoms ≡ self.old.atoms ++ slice_range list.now from to }
        ensures byte_room { self.old.byte_room ≤ self.new.byte_room + run_room list.now from to }
        ensures atom_room { self.new.atom_room + to ≡ self.old.atom_room + from }
    {
        let mut at = from;
        while at < to {
            at = self.push_next(list, at, to);
        }
    }

    /// Adds the frames that follow one another from a place on, or the one atom there where it has
    /// none. The result is the place after them. It takes no memory.
    fn push_next(&mut self, list: &AtomList, at: usize, to: usize) -> usize
        requires order { at < to }
        requires within { to ≤ length list.now }
        requires byte_room { run_room list.now at to ≤ self.old.byte_room }
        requires atom_room { to ≤ at + self.old.atom_room }
        ensures later { at < result }
        ensures within { result ≤ to }
        ensures atoms { self.new.atoms ≡ self.old.atoms ++ slice_range list.now at result }
        ensures byte_room { self.old.byte_room ≤ self.new.byte_room + run_room list.now at result }
        ensures atom_room { self.new.atom_room + result ≡ self.old.atom_room + at }
    {
        let piece = list.piece(at, to);
        let count = piece.starts.len();
        if count == 0 {
            self.push(list.get(at).unwrap());
            return at + 1;
        }
        self.push_piece(piece.bytes, piece.at, piece.starts);
        at + count
    }

    /// Adds the atoms of a list from a place on. It takes no memory.
    pub fn push_rest(&mut self, list: &AtomList, from: usize)
        requires from { from ≤ length list.now }
        requires byte_room { byte_room_for (drop from list.now) ≤ self.old.byte_room }
        requires atom_room { length list.now ≤ from + self.old.atom_room }
        ensures atoms { self.new.atoms ≡ self.old.atoms ++ drop from list.now }
        ensures byte_room { self.old.byte_room
            ≤ self.new.byte_room + byte_room_for (drop from list.now) }
        ensures atom_room { self.new.atom_room + length list.now ≡ self.old.atom_room + from }
    {
        self.push_run(list, from, list.len());
    }

    /// The bytes of the list in form one.
    pub fn into_bytes(self) -> Vec<u8>
        ensures { result.items ≡ frames One self.atoms }
    {
        let Builder {
            alloc: _,
            bytes,
            starts: _starts,
        } = self;
        bytes
    }

    /// The list, which keeps no room.
    pub fn finish(self) -> Result<AtomList, Memory>
        ensures { IfOk result (λ list. list ≡ self.atoms) }
    {
        let Builder {
            alloc,
            mut bytes,
            mut starts,
        } = self;
        bytes.shrink_to_fit();
        starts.shrink_to_fit();
        let laid = starts.len();
        Ok(AtomList {
            alloc,
            bytes: Bytes::from_vec(bytes)?,
            starts,
            laid,
        })
    }
}
