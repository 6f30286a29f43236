//! A list that grows atom by atom.

ghost use Rattle.std.specs.Prelude.{◌≡◌, ◌+◌, ◌<◌, ◌≤◌, [], ◌∷◌, ◌++◌, length, IfOk, OnOk};
ghost use Rattle.context_model.specs.Kinds.{atom_of};
ghost use Rattle.context_model.specs.Kinds.Kind.{Datum, Indexed, Keyed};
ghost use Rattle.bag_model.specs.Scalars.{IsScalarOf, spelling};
ghost use Rattle.scalar_types.specs.KindViews.{kind_of};
ghost use Rattle.scalar_types.specs.Scalars.{value_of};

use atom_kinds::{indexed_prefix, keyed_prefix};
use atom_list::{AtomList, Builder};
use context_model::LEVELS_MAX;
use lex_varint::put_u64;
use outside::{ATOM_MAX, Memory};
use scalar_types::{Codec, Scalar, ScalarKind};
use std::alloc::Global;
use std::marker::Model;

/// The first byte of a datum.
const DATUM: u8 = 0;

/// How many bytes a list has room for at first, and how many atoms: those of a field's header and
/// of a short datum or two.
const FIRST_ROOM: (usize, usize) = (24, 4);

/// A list in the making, which grows as atoms come, and the buffer that each atom is spelled in.
/// Contracts see it as the list.
#[derive(Drop)]
pub(crate) struct GrowingList {
    built: Builder,
    atom: Vec<u8>,
}

impl Model for GrowingList {
    ghost use Rattle.std.specs.Prelude.{ℕ, List};

    ghost Value = { List (List ℕ) };

    ghost view = { λ list. list.built.atoms };

    ghost invariant = { λ _. Unit {0} };
}

/// Adds an atom at the end, with room for it.
fn push_to(built: &mut Builder, atom: &[u8]) -> Result<(), Memory>
    requires { length atom.now ≤ ATOM_MAX }
    ensures { OnOk result (built.new.atoms ≡ built.old.atoms ++ atom.now ∷ []) }
{
    built.reserve(atom.len() + 3, 1)?;
    built.push(atom);
    Ok(())
}

impl GrowingList {
    /// The empty list.
    pub(crate) fn new(alloc: Global) -> Result<GrowingList, Memory>
        ensures { IfOk result (λ list. list ≡ []) }
    {
        let (bytes, atoms) = FIRST_ROOM;
        Ok(GrowingList {
            built: Builder::with_room(alloc, bytes, atoms)?,
            atom: Vec::new(alloc),
        })
    }

    /// Adds the atom with this first byte, which these bytes follow.
    fn push(&mut self, first: u8, rest: &[u8]) -> Result<(), Memory>
        requires { length rest.now < ATOM_MAX }
        ensures { OnOk result (self.new ≡ self.old ++ (first ∷ rest.now) ∷ []) }
    {
        self.atom.clear();
        self.atom.push(first)?;
        self.atom.extend_from_slice(rest)?;
        push_to(&mut self.built, &self.atom)
    }

    /// Adds the atom with this first byte, which a scalar's spelling follows.
    fn push_spelled(&mut self, first: u8, kind: &ScalarKind, scalar: &Scalar) -> Result<(), Memory>
        requires fits { IsScalarOf (kind_of kind.now) (value_of scalar.now) }
        requires short { length (spelling (kind_of kind.now) (value_of scalar.now)) < ATOM_MAX }
        ensures { OnOk result
            (self.new ≡ self.old ++ (first ∷ spelling (kind_of kind.now) (value_of scalar.now))
            ∷ []) }
    {
        self.atom.clear();
        self.atom.push(first)?;
        kind.put(scalar, &mut self.atom)?;
        push_to(&mut self.built, &self.atom)
    }

    /// Adds a datum.
    pub(crate) fn push_datum(&mut self, payload: &[u8]) -> Result<(), Memory>
        requires { length payload.now < ATOM_MAX }
        ensures { OnOk result (self.new ≡ self.old ++ atom_of (Datum payload.now) ∷ []) }
    {
        self.push(DATUM, payload)
    }

    /// Adds the datum of a scalar.
    pub(crate) fn push_scalar(&mut self, kind: &ScalarKind, scalar: &Scalar) -> Result<(), Memory>
        requires fits { IsScalarOf (kind_of kind.now) (value_of scalar.now) }
        requires short { length (spelling (kind_of kind.now) (value_of scalar.now)) < ATOM_MAX }
        ensures { OnOk result
            (self.new ≡ self.old
            ++ atom_of (Datum (spelling (kind_of kind.now) (value_of scalar.now))) ∷ []) }
    {
        self.push_spelled(DATUM, kind, scalar)
    }

    /// Adds the header of a field.
    pub(crate) fn push_index(&mut self, level: u8, number: u64) -> Result<(), Memory>
        requires { level < LEVELS_MAX }
        ensures { OnOk result (self.new ≡ self.old ++ atom_of (Indexed level number) ∷ []) }
    {
        self.push(indexed_prefix(level), put_u64(number).as_slice())
    }

    /// Adds the header of a counter's writer.
    pub(crate) fn push_writer(&mut self, level: u8, writer: &[u8]) -> Result<(), Memory>
        requires level { level < LEVELS_MAX }
        requires short { length writer.now < ATOM_MAX }
        ensures { OnOk result (self.new ≡ self.old ++ atom_of (Keyed level writer.now) ∷ []) }
    {
        self.push(keyed_prefix(level), writer)
    }

    /// Adds the header of a map's key.
    pub(crate) fn push_key(
        &mut self,
        level: u8,
        kind: &ScalarKind,
        key: &Scalar,
    ) -> Result<(), Memory>
        requires level { level < LEVELS_MAX }
        requires fits { IsScalarOf (kind_of kind.now) (value_of key.now) }
        requires short { length (spelling (kind_of kind.now) (value_of key.now)) < ATOM_MAX }
        ensures { OnOk result
            (self.new ≡ self.old
            ++ atom_of (Keyed level (spelling (kind_of kind.now) (value_of key.now))) ∷ []) }
    {
        self.push_spelled(keyed_prefix(level), kind, key)
    }

    /// The list.
    pub(crate) fn finish(self) -> Result<AtomList, Memory>
        ensures { IfOk result (λ list. list ≡ self) }
    {
        let GrowingList { built, atom: _atom } = self;
        built.finish()
    }
}
