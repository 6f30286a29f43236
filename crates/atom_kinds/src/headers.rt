//! The first bytes of headers, the header of a field, and whether an atom is the header of a key.

ghost use Rattle.std.specs.Prelude.{◌≡◌, ◌↔◌, List, ℕ, ◌<◌, ◌∷◌, IsTrue};
ghost use Rattle.context_model.specs.Kinds.{atom_of};
ghost use Rattle.context_model.specs.Kinds.Kind.{Indexed as PlainIndexed, Keyed as PlainKeyed};
ghost use Rattle.context_model.specs.Orders.{atom_cmp};
ghost use Rattle.context_model.specs.Varints.{unsigned_varint};

use crate::compare;
use context_model::LEVELS_MAX;
use lex_varint::{Spelled, put_u64};
use std::cmp::Ordering;
use std::marker::Model;

/// The first byte of an indexed header of level 0. A header one level further in begins with 8
/// less.
const OUTER_INDEXED: u8 = 0xf8;

/// The first byte of a keyed header of level 0.
const OUTER_KEYED: u8 = 0xf9;

/// The first byte of the indexed headers of a level, before the varint of the number.
pub fn indexed_prefix(level: u8) -> u8
    requires { level < LEVELS_MAX }
    ensures { (number : ℕ) → atom_of (PlainIndexed level number) ≡ result ∷ unsigned_varint number }
{
    OUTER_INDEXED - 8 * level
}

/// The first byte of the keyed headers of a level, before the key.
pub fn keyed_prefix(level: u8) -> u8
    requires { level < LEVELS_MAX }
    ensures { (key : List ℕ) → atom_of (PlainKeyed level key) ≡ result ∷ key }
{
    OUTER_KEYED - 8 * level
}

/// The indexed header of a field, spelled once for a whole search. It takes no memory. Contracts
/// see it as the atom.
#[derive(Debug, Drop)]
pub struct FieldHeader {
    first: u8,
    number: Spelled,
}

impl Model for FieldHeader {
    ghost use Rattle.std.specs.Prelude.{List, ℕ, ◌∷◌};

    ghost Value = { List ℕ };

    ghost view = { λ header. header.first ∷ header.number };
}

impl FieldHeader {
    /// The header of a level and a number.
    pub fn new(level: u8, number: u64) -> FieldHeader
        requires { level < LEVELS_MAX }
        ensures { result ≡ atom_of (PlainIndexed level number) }
    {
        FieldHeader {
            first: indexed_prefix(level),
            number: put_u64(number),
        }
    }

    /// How an atom compares with the header.
    pub fn order_of(&self, atom: &[u8]) -> Ordering
        ensures { result ≡ atom_cmp atom.now self.now }
    {
        let own = self.first;
        let Some((first, rest)) = atom.split_first() else {
            return Ordering::Less;
        };
        match first.cmp(&own) {
            Ordering::Equal => compare(rest, self.number.as_slice()),
            other => other,
        }
    }

    /// Whether an atom is the header.
    pub fn is(&self, atom: &[u8]) -> bool
        ensures { IsTrue result ↔ (atom.now ≡ self.now) }
    {
        self.order_of(atom).is_eq()
    }
}

/// Whether an atom is the header of a key of this level.
pub fn is_key(atom: &[u8], level: u8) -> bool
    requires { level < LEVELS_MAX }
    ensures { IsTrue result ↔ ((key : List ℕ) × (atom.now ≡ atom_of (PlainKeyed level key))) }
{
    match atom.split_first() {
        Some((first, _)) => *first == keyed_prefix(level),
        None => false,
    }
}
