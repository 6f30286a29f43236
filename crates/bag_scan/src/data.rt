//! Data among the atoms of a part.

ghost use Rattle.std.specs.Prelude.{◌↔◌, ◌<◌, ◌≤◌, length, IsTrue};
ghost use Rattle.bag_walks.specs.Gathering.{IsDatumAt, IsFirstDatum, IsLastDatum};

use crate::parts::atom;
use atom_list::AtomList;

/// Whether the atom at a place is a datum.
pub fn is_datum(list: &AtomList, at: usize) -> bool
    requires { at < length list.now }
    ensures { IsTrue result ↔ IsDatumAt list.now at }
{
    match atom(list, at).first() {
        Some(first) => *first == 0,
        None => false,
    }
}

/// The place of the first datum from one place up to another.
pub fn first_datum(list: &AtomList, from: usize, to: usize) -> Option<usize>
    requires { to ≤ length list.now }
    ensures { IsFirstDatum list.now from to result }
{
    for at in from..to {
        if is_datum(list, at) {
            return Some(at);
        }
    }
    None
}

/// The place of the last datum from one place up to another.
pub fn last_datum(list: &AtomList, from: usize, to: usize) -> Option<usize>
    requires order { from ≤ to }
    requires within { to ≤ length list.now }
    ensures { IsLastDatum list.now from to result }
{
    let mut last = None;
    for at in from..to {
        if is_datum(list, at) {
            last = Some(at);
        }
    }
    last
}
