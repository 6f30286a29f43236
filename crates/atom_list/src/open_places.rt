//! The places of the headers that are open while a list is walked.

ghost use Rattle.std.specs.Prelude.{◌≡◌, ◌<◌, ◌≤◌, [], ◌∷◌, ◌++◌, length, take, slice_index};
ghost use Rattle.atom_list.specs.Places.{padded};

use context_model::LEVELS_MAX;
use std::marker::Model;

/// The places of the open headers by their levels, and 0 at each level that isn't open. Contracts
/// see it as the list of these places.
#[derive(Debug, Drop)]
pub(crate) struct OpenPlaces {
    count: usize,
    above: [usize; LEVELS_MAX],
}

impl Model for OpenPlaces {
    ghost use Rattle.std.specs.Prelude.{List, ℕ, take, ◌≤◌};
    ghost use Rattle.context_model.specs.declared.TheConstants.{LEVELS_MAX};
    ghost use Rattle.atom_list.specs.OpenPlaces.{AreClosed};

    ghost Value = { List ℕ };

    ghost view = { λ places. take places.count places.above };

    ghost invariant = { λ places. (places.count ≤ LEVELS_MAX) × AreClosed places.count places.above };
}

impl OpenPlaces {
    /// No header is open.
    pub(crate) fn new() -> OpenPlaces
        ensures { result ≡ [] }
    {
        OpenPlaces {
            count: 0,
            above: [0; LEVELS_MAX],
        }
    }

    /// How many headers are open.
    pub(crate) fn len(&self) -> usize
        ensures len { result ≡ length self.now }
        ensures few { result ≤ LEVELS_MAX }
    {
        self.count
    }

    /// The place of the open header of a level.
    pub(crate) fn get(&self, level: usize) -> usize
        requires { level < length self.now }
        ensures { result ≡ slice_index self.now level }
    {
        let above = &self.above;
        above[level]
    }

    /// Leaves the headers of the levels from `level` on.
    pub(crate) fn truncate(&mut self, level: usize)
        requires { level ≤ length self.old }
        ensures { self.new ≡ take level self.old }
    {
        let open = self.count;
        self.count = level;
        self.above[level..open].fill(0);
    }

    /// Opens the next level by the header at a place.
    pub(crate) fn push(&mut self, at: usize)
        requires { length self.old < LEVELS_MAX }
        ensures { self.new ≡ self.old ++ at ∷ [] }
    {
        self.above[self.count] = at;
        self.count += 1;
    }

    /// The places by levels, and 0 at those that aren't open.
    pub(crate) fn by_level(&self) -> [usize; LEVELS_MAX]
        ensures { result ≡ padded self.now }
    {
        self.above
    }
}
