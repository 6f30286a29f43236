//! The lists of a step's parents, by their places among other lists.

ghost use Rattle.std.specs.Prelude.{◌≡◌, ◌<◌, length, map};
ghost use Rattle.trace_model.specs.Runs.{list_at};
ghost use Rattle.step_rules.specs.Parents.{AreWithinLists};

use atom_list::Context;

/// The list at a place.
fn at(pool: &[Context], place: usize) -> &Context
    requires { place < length pool.now }
    ensures { result.now ≡ list_at pool.now place }
{
    &pool[place]
}

/// The list at the first place.
pub(crate) fn first<'a>(pool: &'a [Context], places: &[usize]) -> &'a Context
    requires some { 0 < length places.now }
    requires within { AreWithinLists pool.now places.now }
    ensures { result.now ≡ list_at (map (list_at pool.now) places.now) 0 }
{
    at(pool, places[0])
}
