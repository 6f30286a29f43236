//! What contracts say of atoms and contexts: definitions in specs/, and their laws in proofs/. The
//! code has the two forms in which a list is laid out, with their limits.
#![tactic(auto)]

ghost use Rattle.std.specs.Prelude.{◌≡◌};
ghost use Rattle.context_model.specs.Framing.{head_len, least_budget, most};

/// The most bytes that an atom has.
pub const ATOM_MAX: usize = 1_048_576;

/// How many levels of headers there are: a header's level is below this, and at most this many
/// headers are around a datum.
pub const LEVELS_MAX: usize = 16;

/// How many bytes the head of form two has: its mark, and the number of bytes that follow the head.
pub const HEAD_LEN: usize = 12;

/// The greatest length that is written before an atom in the bytes of a list of form one.
pub const LENGTH_MAX: usize = 65_535;

/// How a list is laid out as bytes: each atom follows its length in base 128, or its length as a
/// varint where all of them follow a head that says how many bytes come after it.
#[derive(Clone, Copy, Debug, PartialEq, Eq)]
pub enum Form {
    One,
    Two,
}

impl Form {
    /// How many bytes come before the first atom.
    pub fn head_len(self) -> usize
        ensures { result ≡ head_len self }
    {
        match self {
            Form::One => 0,
            Form::Two => HEAD_LEN,
        }
    }

    /// The least budget that a list can be cut to: the head and a marker.
    pub fn least_budget(self) -> u64
        ensures { result ≡ least_budget self }
    {
        match self {
            Form::One => 1,
            Form::Two => HEAD_LEN as u64 + 1,
        }
    }
}
