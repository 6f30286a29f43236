//! The numbers on the way to a slot.

ghost use Rattle.std.specs.Prelude.{◌≡◌, ◌<◌, ◌≤◌, [], ◌∷◌, ◌++◌, length};

use bag_model::LEVELS_MAX;
use std::marker::Model;

/// The numbers of the fields on the way to a slot, from the outermost bag on: at most `LEVELS_MAX`.
/// It takes no memory.
#[derive(Debug, Drop)]
pub struct SlotPath {
    numbers: [u64; LEVELS_MAX],
    len: usize,
}

impl Model for SlotPath {
    ghost use Rattle.std.specs.Prelude.{ℕ, ◌≤◌, List, take};

    ghost Value = { List ℕ };

    ghost use Rattle.context_model.specs.declared.TheConstants.{LEVELS_MAX};

    ghost view = { λ path. take path.len path.numbers };

    ghost invariant = { λ path. path.len ≤ LEVELS_MAX };
}

impl SlotPath {
    /// No number.
    pub(crate) fn new() -> SlotPath
        ensures { result ≡ [] }
    {
        SlotPath {
            numbers: [0; LEVELS_MAX],
            len: 0,
        }
    }

    /// Adds a number at the end.
    pub(crate) fn push(&mut self, number: u64)
        requires { length self.old < LEVELS_MAX }
        ensures { self.new ≡ self.old ++ number ∷ [] }
    {
        self.numbers[self.len] = number;
        self.len += 1;
    }

    /// The numbers, that of the outermost field first.
    pub fn as_slice(&self) -> &[u64]
        ensures numbers { result.now ≡ self.now }
        ensures few { length self.now ≤ LEVELS_MAX }
    {
        &self.numbers[..self.len]
    }
}
