//! The headers that are open at a place of a list.

ghost use Rattle.std.specs.Prelude.{◌≡◌, ◌+◌, ◌<◌, ◌≤◌, ◌∷◌, ℕ, List, Some, length, IfErr, OnOk, OnErr, IsTrue, ◌↔◌};
ghost use Rattle.std.specs.declared.cmp.Ordering.TheVariants.{Less};
ghost use Rattle.context_model.specs.Orders.{atom_cmp};
ghost use Rattle.atom_list.specs.Contexts.{shape_fault_code_of};
ghost use Rattle.atom_list.specs.OpenPlaces.{IsOpenAt, IsHeaderOf, IsWrongAt, MayStand, RisesTo, atom_at};

use crate::contexts::ShapeFault;
use crate::lists::AtomList;
use crate::open_places::OpenPlaces;
use atom_kinds::{Kind, KindFault, compare, kind_of};
use std::cmp::Ordering;

/// The places of the headers that are open after an atom, by their levels, and of the last datum
/// after the last of them.
#[derive(Drop)]
pub(crate) struct OpenHeaders {
    pub(crate) headers: OpenPlaces,
    pub(crate) datum: Option<usize>,
}

/// Whether an atom is greater than the one at an earlier place.
fn rises(list: &AtomList, earlier: usize, atom: &[u8]) -> bool
    requires { earlier < length list.now }
    ensures { IsTrue result ↔ (atom_cmp (atom_at list.now earlier) atom.now ≡ Less) }
{
    compare(list.get(earlier).unwrap(), atom) == Ordering::Less
}

/// Whether an atom is greater than the earlier one, where there is one.
fn rises_behind(list: &AtomList, earlier: Option<usize>, atom: &[u8]) -> bool
    requires { (place : ℕ) → earlier ≡ Some place → place < length list.now }
    ensures { IsTrue result ↔ RisesTo list.now earlier atom.now }
{
    match earlier {
        Some(place) => rises(list, place, atom),
        None => true,
    }
}

impl OpenHeaders {
    /// Before the first atom no header is open.
    pub(crate) fn new() -> OpenHeaders
        ensures { (list : List (List ℕ)) → IsOpenAt list 0 result.headers result.datum }
    {
        OpenHeaders {
            headers: OpenPlaces::new(),
            datum: None,
        }
    }

    /// Admits the atom at a place, or says what is wrong with it there.
    pub(crate) fn admit(&mut self, list: &AtomList, at: usize) -> Result<(), ShapeFault>
        requires at { at < length list.now }
        requires open { IsOpenAt list.now at self.old.headers self.old.datum }
        ensures ok { OnOk result (MayStand list.now at) }
        ensures open { OnOk result (IsOpenAt list.now (at + 1) self.new.headers self.new.datum) }
        ensures err { IfErr result (λ fault. IsWrongAt (shape_fault_code_of fault) list.now at) }
    {
        let atom = list.get(at).unwrap();
        match kind_of(atom) {
            Ok(Kind::Marker) => Ok(()),
            Ok(Kind::Datum) => self.admit_datum(list, at, atom),
            Ok(Kind::Indexed { level, .. }) => {
                self.admit_header(list, at, atom, usize::from(level))
            }
            Ok(Kind::Keyed { level }) => self.admit_header(list, at, atom, usize::from(level)),
            Err(KindFault::BadPrefix) => Err(ShapeFault::BadPrefix),
            Err(KindFault::BadIndex) => Err(ShapeFault::BadIndex),
        }
    }

    /// Admits a datum.
    fn admit_datum(&mut self, list: &AtomList, at: usize, atom: &[u8]) -> Result<(), ShapeFault>
        requires at { at < length list.now }
        requires atom { atom.now ≡ atom_at list.now at }
        requires open { IsOpenAt list.now at self.old.headers self.old.datum }
        requires datum { (payload : List ℕ) × (atom_at list.now at ≡ 0 ∷ payload) }
        ensures ok { OnOk result (MayStand list.now at) }
        ensures open { OnOk result (IsOpenAt list.now (at + 1) self.new.headers self.new.datum) }
        ensures err { IfErr result (λ fault. IsWrongAt (shape_fault_code_of fault) list.now at) }
    {
        if !rises_behind(list, self.datum, atom) {
            return Err(ShapeFault::OutOfOrder);
        }
        self.datum = Some(at);
        Ok(())
    }

    /// Admits a header of a level.
    fn admit_header(
        &mut self,
        list: &AtomList,
        at: usize,
        atom: &[u8],
        level: usize,
    ) -> Result<(), ShapeFault>
        requires at { at < length list.now }
        requires atom { atom.now ≡ atom_at list.now at }
        requires open { IsOpenAt list.now at self.old.headers self.old.datum }
        requires header { IsHeaderOf (atom_at list.now at) level }
        ensures ok { OnOk result (MayStand list.now at) }
        ensures open { OnOk result (IsOpenAt list.now (at + 1) self.new.headers self.new.datum) }
        ensures err { IfErr result (λ fault. IsWrongAt (shape_fault_code_of fault) list.now at) }
    {
        let count = self.headers.len();
        if count < level {
            return Err(ShapeFault::LevelJump);
        }
        if level < count && !rises(list, self.headers.get(level), atom) {
            return Err(ShapeFault::OutOfOrder);
        }
        self.headers.truncate(level);
        self.headers.push(at);
        self.datum = None;
        Ok(())
    }
}
