//! Definitions and laws of what a context means: scalars with their order and their spellings, the
//! words of the definition language, shapes of fields and what makes a table of them, slots with
//! their name paths, and views. They are in `specs/`, and what is proved of them is in `proofs/`.
//! The crates above cite both. The code has the words of scalars, their limits, and which of several
//! values a scalar field keeps.
#![tactic(auto)]

mod words;

// The fields of a table take at most this many levels of headers, those of the keys of counters and
// maps included.
pub use context_model::LEVELS_MAX;
pub use words::ScalarWord;

/// The most fields that a table has, with those of all bags inside it.
pub const FIELDS_MAX: usize = 16_384;

/// Which of several values of a scalar field stays.
#[derive(Clone, Copy, Debug, PartialEq, Eq)]
pub enum Pick {
    Least,
    Greatest,
}
