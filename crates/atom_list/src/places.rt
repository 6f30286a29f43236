//! Walks over a context, atom by atom, with the headers around each.

ghost use Rattle.std.specs.Prelude.{◌≡◌, length};
ghost use Rattle.std.specs.Iterator.{YieldsFirst, item_count};
ghost use Rattle.atom_list.specs.Places.{places, padded};

use crate::contexts::Context;
use crate::lists::AtomList;
use crate::open_places::OpenPlaces;
use atom_kinds::header_level;
use context_model::LEVELS_MAX;
use std::marker::Model;

/// Where an atom is in a context: at place `at` of the list, within `level` headers. Their places
/// are the first `level` entries of `above`, by their levels, and the other entries are 0. The
/// headers around a marker are those that a datum in its place would have.
#[derive(Clone, Copy, Debug, PartialEq, Eq)]
pub struct Place {
    pub at: usize,
    pub level: u8,
    pub above: [usize; LEVELS_MAX],
}

/// The places of the atoms of a context that are left to walk over. Contracts see it as their list.
#[derive(Debug, Drop)]
pub struct Walk<'a> {
    list: &'a AtomList,
    at: usize,
    headers: OpenPlaces,
}

impl<'a> Model for Walk<'a> {
    ghost use Rattle.std.specs.Prelude.{List, ◌≡◌, ◌≤◌, take, drop, length};
    ghost use Rattle.context_model.specs.Paths.{header_count, last_path_after};
    ghost use Rattle.context_model.specs.WellFormed.{IsWellFormed};
    ghost use Rattle.atom_list.specs.declared.places.Place.{Place};
    ghost use Rattle.atom_list.specs.Places.{places_behind, IsAtomWalk};

    ghost Value = { List Place };

    ghost view = { λ walk. places_behind (take walk.at walk.list.now) (drop walk.at walk.list.now) };

    ghost invariant = { λ walk. IsAtomWalk walk.list.now walk.at walk.headers };
}

impl Context {
    /// A walk over the atoms. It takes no memory, and each step takes the same time.
    pub fn walk(&self) -> Walk<'_>
        ensures { result ≡ places self.now }
    {
        Walk {
            list: self.list(),
            at: 0,
            headers: OpenPlaces::new(),
        }
    }
}

/// The place of an atom at `at` within these headers.
fn place_within(headers: &OpenPlaces, at: usize) -> Place
    ensures { result ≡ record { at = at; level = length headers.now; above = padded headers.now } }
{
    Place {
        at,
        level: headers.len() as u8,
        above: headers.by_level(),
    }
}

impl Iterator for Walk<'_> {
    type Item = Place;

    ghost next_gives = { YieldsFirst (λ walk. walk) };

    ghost remaining = { item_count (λ walk. walk) };

    fn next(&mut self) -> Option<Place> {
        let at = self.at;
        if at == self.list.len() {
            return None;
        }
        self.at += 1;
        let Some(level) = header_level(self.list.get(at).unwrap()) else {
            return Some(place_within(&self.headers, at));
        };
        self.headers.truncate(level);
        let place = place_within(&self.headers, at);
        self.headers.push(at);
        Some(place)
    }
}
