//! Lists that are found in bytes, which aren't copied.

ghost use Rattle.std.specs.Prelude.{◌≡◌, ◌+◌, ◌≤◌, [], ◌∷◌, ◌++◌, length, take, drop, slice_range, IfOk, OnOk, OnErr};
ghost use Rattle.context_model.specs.Atoms.{AreAtoms};
ghost use Rattle.context_model.specs.declared.Form.TheVariants.{One};
ghost use Rattle.context_model.specs.Framing.{base_128, frames};
ghost use Rattle.atom_list.specs.Scan.{with_part};

use crate::builder::BUFFER_MAX;
use crate::lengths::length_bytes;
use crate::lists::AtomList;
use crate::starts::give_back_room;
use bytes::Bytes;
use outside::{ATOM_MAX, Memory};
use std::alloc::Global;
use std::marker::Model;

/// A list whose frames are found one by one from the beginning of bytes that it takes over and
/// doesn't copy. Contracts see it as the list so far and the bytes after it.
#[derive(Debug, Drop)]
pub struct Scan {
    alloc: Global,
    bytes: Vec<u8>,
    at: usize,
    starts: Vec<u32>,
}

impl Model for Scan {
    ghost use Rattle.std.specs.Prelude.{take, drop};
    ghost use Rattle.atom_list.specs.Scan.{Scanned, IsScan};
    ghost use Rattle.atom_list.specs.Starts.{atoms_at};

    ghost Value = { Scanned };

    ghost view = { λ s. record {
      atoms = atoms_at (take s.at s.bytes.items) s.starts.items;
      rest = drop s.at s.bytes.items;
    } };

    ghost invariant = { λ s. IsScan s.bytes.items s.at s.starts.items };
}

impl Scan {
    /// Over these bytes, of which none is looked at yet. Room is taken for a frame in every six
    /// bytes, so that a list of short atoms is found without growing. A buffer holds fewer than 2 ^
    /// 32 bytes: for more there is no memory.
    pub fn over(alloc: Global, bytes: Vec<u8>) -> Result<Scan, Memory>
        ensures atoms { IfOk result (λ scan. scan.atoms ≡ []) }
        ensures rest { IfOk result (λ scan. scan.rest ≡ bytes.items) }
    {
        if BUFFER_MAX < bytes.len() {
            return Err(Memory);
        }
        let starts = Vec::with_capacity(alloc, bytes.len() / 6)?;
        Ok(Scan {
            alloc,
            bytes,
            at: 0,
            starts,
        })
    }

    /// The bytes after the list.
    pub fn rest(&self) -> &[u8]
        ensures { result.now ≡ self.now.rest }
    {
        &self.bytes[self.at..]
    }

    /// How many bytes the list has in form one.
    pub fn offset(&self) -> usize
        ensures { result ≡ length (frames One self.now.atoms) }
    {
        self.at
    }

    /// Writes `len` in base 128 over the first `skip` bytes of the rest, which are as many as it
    /// takes.
    pub fn respell(&mut self, skip: usize, len: usize)
        requires within { skip ≤ length self.old.rest }
        requires short { len ≤ ATOM_MAX }
        requires skip { skip ≡ length (base_128 len) }
        ensures atoms { self.new.atoms ≡ self.old.atoms }
        ensures rest { self.new.rest ≡ base_128 len ++ drop skip self.old.rest }
    {
        let code = length_bytes(len);
        self.bytes[self.at..self.at + skip].copy_from_slice(&code[..skip]);
    }

    /// Notes the frame that the rest begins with: `skip` bytes of a length, and `len` bytes of an
    /// atom. Where memory runs out, all stays as it was.
    pub fn note(&mut self, skip: usize, len: usize) -> Result<(), Memory>
        requires within { skip + len ≤ length self.old.rest }
        requires short { len ≤ ATOM_MAX }
        requires framed { take skip self.old.rest ≡ base_128 len }
        ensures atoms { OnOk result (self.new.atoms ≡ with_part self.old skip len) }
        ensures rest { OnOk result (self.new.rest ≡ drop (skip + len) self.old.rest) }
        ensures err { OnErr result (self.new ≡ self.old) }
    {
        self.starts.push(self.at as u32)?;
        self.at += skip + len;
        Ok(())
    }

    /// The list. The bytes after it are let go.
    pub fn finish(self) -> Result<AtomList, Memory>
        ensures list { IfOk result (λ list. list ≡ self.atoms) }
        ensures short { IfOk result AreAtoms }
    {
        let Scan {
            alloc,
            mut bytes,
            at,
            mut starts,
        } = self;
        bytes.truncate(at);
        give_back_room(&mut starts);
        let laid = starts.len();
        Ok(AtomList {
            alloc,
            bytes: Bytes::from_vec(bytes)?,
            starts,
            laid,
        })
    }
}
