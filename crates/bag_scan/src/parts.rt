//! Parts of a list, from one place up to another.

ghost use Rattle.std.specs.Prelude.{◌≡◌, ◌<◌, ◌≤◌, length};
ghost use Rattle.context_model.specs.Paths.{atom_at};
ghost use Rattle.bag_walks.specs.Parts.{IsDataPart, IsSegment};

use atom_kinds::header_level;
use atom_list::AtomList;

/// The atom at a place.
pub fn atom(list: &AtomList, at: usize) -> &[u8]
    requires { at < length list.now }
    ensures { result.now ≡ atom_at list.now at }
{
    list.get(at).unwrap()
}

/// Where the data from a place on end: at the next header, or at the end of the list.
pub fn data_end(list: &AtomList, from: usize) -> usize
    requires { from ≤ length list.now }
    ensures { IsDataPart list.now from result }
{
    for at in from..list.len() {
        if let Some(_) = header_level(atom(list, at)) {
            return at;
        }
    }
    list.len()
}

/// Where all that is below headers of lesser levels than `depth`, from a place on, ends: at the
/// next such header, or at the end of the list.
pub fn segment_end(list: &AtomList, depth: usize, from: usize) -> usize
    requires { from ≤ length list.now }
    ensures { IsSegment list.now depth from result }
{
    for at in from..list.len() {
        if let Some(level) = header_level(atom(list, at)) {
            if level < depth {
                return at;
            }
        }
    }
    list.len()
}
