//! Searches for the header of a field or of a key among what is below a path.

ghost use Rattle.std.specs.Prelude.{◌≡◌, ◌<◌, ◌≤◌, false, length, IsTrue, IfOk, IfErr};
ghost use Rattle.context_model.specs.Kinds.{atom_of};
ghost use Rattle.context_model.specs.Kinds.Kind.{Indexed};
ghost use Rattle.bag_walks.specs.Searches.{IsPassed, IsStop, IsSought};
ghost use Rattle.bag_scan.specs.Searches.{IsFoundBehind, IsMissing, IsKeyFound, HasNoKey};

use crate::parts::atom;
use atom_kinds::{FieldHeader, header_level, is_key, rest};
use atom_list::AtomList;
use context_model::LEVELS_MAX;

/// Whether a search for a header of this level goes past the atom at a place.
fn passes(list: &AtomList, level: usize, header: &FieldHeader, at: usize) -> bool
    requires { at < length list.now }
    ensures passed { IsTrue result → IsPassed list.now level header.now at }
    ensures stop { result ≡ false → IsStop list.now level header.now at }
{
    let atom = atom(list, at);
    match header_level(atom) {
        None => true,
        Some(own) => own > level || own == level && header.order_of(atom).is_lt(),
    }
}

/// The first place from `from` on where a search for a header of this level stops, or the end of
/// the list.
fn seek(list: &AtomList, level: usize, header: &FieldHeader, from: usize) -> usize
    requires { from ≤ length list.now }
    ensures { IsSought list.now level header.now from result }
{
    for at in from..list.len() {
        if !passes(list, level, header, at) {
            return at;
        }
    }
    list.len()
}

/// The place after the header of the field with this number, sought from a place on among the
/// headers of this level; or, where it isn't there, the place where the search stopped.
pub fn find_field(list: &AtomList, level: usize, number: u64, from: usize) -> Result<usize, usize>
    requires level { level < LEVELS_MAX }
    requires from { from ≤ length list.now }
    ensures found { IfOk result
        (IsFoundBehind list.now level (atom_of (Indexed level number)) from) }
    ensures missing { IfErr result
        (IsMissing list.now level (atom_of (Indexed level number)) from) }
{
    let header = FieldHeader::new(level as u8, number);
    let at = seek(list, level, &header, from);
    if at < list.len() && header.is(atom(list, at)) {
        Ok(at + 1)
    } else {
        Err(at)
    }
}

/// The next key of this level, from a place on, and the place after its header; or, where there is
/// none, the place where what is below ends.
pub fn find_key(list: &AtomList, level: usize, from: usize) -> Result<(&[u8], usize), usize>
    requires level { level < LEVELS_MAX }
    requires from { from ≤ length list.now }
    ensures found { IfOk result (λ found. IsKeyFound list.now level from found.0.now found.1) }
    ensures none { IfErr result (HasNoKey list.now level from) }
{
    for at in from..list.len() {
        let atom = atom(list, at);
        if let Some(own) = header_level(atom) {
            if own < level {
                return Err(at);
            }
            if is_key(atom, level as u8) {
                return Ok((rest(atom), at + 1));
            }
        }
    }
    Err(list.len())
}
