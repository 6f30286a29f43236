//! The atoms that an atom is compared with: the headers that are open where it is, and the datum
//! before it.

ghost use Rattle.std.specs.Prelude.{◌≡◌, ◌<◌, ◌∷◌, List, ℕ, [], IsTrue, ◌↔◌};
ghost use Rattle.std.specs.declared.cmp.Ordering.TheVariants.{Less};
ghost use Rattle.context_model.specs.Orders.{Path, atom_cmp};
ghost use Rattle.atom_list.specs.OpenPlaces.{IsHeaderOf};
ghost use Rattle.byte_frames.specs.OpenAtoms.{IsOpenFor, Admits, RisesToAtom, opened_by};

use atom_kinds::{Kind, KindFault, compare, kind_of};
use atom_list::ShapeFault;
use context_model::LEVELS_MAX;
use std::cmp::Ordering;

/// The headers that are open after an atom, by their levels.
#[derive(Drop)]
pub(crate) struct OpenHeaders<'a> {
    headers: [&'a [u8]; LEVELS_MAX],
    count: usize,
}

/// Whether an atom is greater than an earlier one.
fn rises(earlier: &[u8], atom: &[u8]) -> bool
    ensures { IsTrue result ↔ (atom_cmp earlier.now atom.now ≡ Less) }
{
    compare(earlier, atom) == Ordering::Less
}

/// Whether an atom is greater than the earlier one, where there is one.
fn rises_behind(earlier: Option<&[u8]>, atom: &[u8]) -> bool
    ensures { IsTrue result ↔ RisesToAtom earlier.entry atom.now }
{
    match earlier {
        Some(earlier) => rises(earlier, atom),
        None => true,
    }
}

impl<'a> OpenHeaders<'a> {
    /// Before the first atom no header is open.
    pub(crate) fn new() -> OpenHeaders<'a>
        ensures { IsOpenFor [] (opened_by result None) }
    {
        OpenHeaders {
            headers: [&[]; LEVELS_MAX],
            count: 0,
        }
    }

    /// Admits an atom, or says what is wrong with it after the atoms that were admitted. `datum` is
    /// the last datum after the last of the headers.
    #[inline(always)]
    pub(crate) fn admit(
        &mut self,
        datum: &mut Option<&'a [u8]>,
        atom: &'a [u8],
    ) -> Result<(), ShapeFault>
        ensures { (q : Path) → IsOpenFor q (opened_by self.old datum.old)
            → Admits q atom.now (opened_by self.new datum.new) result }
    {
        match kind_of(atom) {
            Ok(Kind::Marker) => Ok(()),
            Ok(Kind::Datum) => self.admit_datum(datum, atom),
            Ok(Kind::Indexed { level, .. }) => self.admit_header(datum, atom, usize::from(level)),
            Ok(Kind::Keyed { level }) => self.admit_header(datum, atom, usize::from(level)),
            Err(KindFault::BadPrefix) => Err(ShapeFault::BadPrefix),
            Err(KindFault::BadIndex) => Err(ShapeFault::BadIndex),
        }
    }

    /// Admits a datum.
    #[inline(always)]
    fn admit_datum(&self, datum: &mut Option<&'a [u8]>, atom: &'a [u8]) -> Result<(), ShapeFault>
        requires { (payload : List ℕ) × (atom.now ≡ 0 ∷ payload) }
        ensures { (q : Path) → IsOpenFor q (opened_by self.now datum.old)
            → Admits q atom.now (opened_by self.now datum.new) result }
    {
        if !rises_behind(*datum, atom) {
            return Err(ShapeFault::OutOfOrder);
        }
        *datum = Some(atom);
        Ok(())
    }

    /// Admits a header of a level.
    #[inline(always)]
    fn admit_header(
        &mut self,
        datum: &mut Option<&'a [u8]>,
        atom: &'a [u8],
        level: usize,
    ) -> Result<(), ShapeFault>
        requires { IsHeaderOf atom.now level }
        ensures { (q : Path) → IsOpenFor q (opened_by self.old datum.old)
            → Admits q atom.now (opened_by self.new datum.new) result }
    {
        if self.count < level {
            return Err(ShapeFault::LevelJump);
        }
        if level < self.count && !rises(self.headers[level], atom) {
            return Err(ShapeFault::OutOfOrder);
        }
        self.headers[level] = atom;
        self.count = level + 1;
        *datum = None;
        Ok(())
    }
}
