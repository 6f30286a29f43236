//! Which fields of a context can't have lost anything to a cut.

ghost use Rattle.std.specs.Prelude.{◌≡◌, ◌↔◌, ◌<◌, ◌≤◌, IsTrue, length};
ghost use Rattle.context_model.specs.Ended.{field_path, IsBeyond, IsEnded};
ghost use Rattle.atom_list.specs.OpenPlaces.{ArePlaces, atoms_at_places};

use crate::contexts::Context;
use crate::lists::AtomList;
use crate::open_places::OpenPlaces;
use atom_kinds::{FieldHeader, header_level};
use context_model::LEVELS_MAX;
use std::cmp::Ordering;

/// Whether the headers at these places are beyond the field with these numbers.
fn are_beyond(list: &AtomList, headers: &OpenPlaces, numbers: &[u64]) -> bool
    requires few { length numbers.now ≤ LEVELS_MAX }
    requires within { ArePlaces headers.now list.now }
    ensures { IsTrue result
        ↔ IsBeyond (field_path numbers.now) (atoms_at_places list.now headers.now) }
{
    for level in 0..numbers.len().min(headers.len()) {
        let header = list.get(headers.get(level)).unwrap();
        match FieldHeader::new(level as u8, numbers[level]).order_of(header) {
            Ordering::Greater => return true,
            Ordering::Equal => {}
            Ordering::Less => return false,
        }
    }
    false
}

impl Context {
    /// Whether nothing below the field with these numbers, which leads down from level 0 through
    /// nested bags, can have been cut off: the context has no marker, or an atom beyond the field
    /// comes before the first one. The numbers are at most 16. It takes no memory.
    pub fn ended(&self, numbers: &[u64]) -> bool
        requires { length numbers.now ≤ LEVELS_MAX }
        ensures { IsTrue result ↔ IsEnded self.now (field_path numbers.now) }
    {
        let list = self.list();
        let mut headers = OpenPlaces::new();
        for at in 0..list.len() {
            let atom = list.get(at).unwrap();
            if atom.is_empty() {
                return are_beyond(list, &headers, numbers);
            }
            if let Some(level) = header_level(atom) {
                headers.truncate(level);
                headers.push(at);
            }
        }
        true
    }
}
