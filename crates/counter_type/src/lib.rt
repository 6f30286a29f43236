//! Values that are joined, entries of keys with such values, and the counts of writers.
//!
//! A [`Lattice`] is a type of values with a join: commutative, associative and idempotent, as its
//! impl has to prove.
//!
//! ```rust
//! let mut counts = Counts::of(alloc, b"cart", 3)?;
//! counts.join(&Counts::of(alloc, b"gateway", 1)?)?;
//! counts.total()                                            // 4
//! ```
#![tactic(auto)]

mod counts;
pub mod entries;
mod keys;
mod lattice;
pub mod moves;
mod sharing;

pub use counts::{Counts, counts_join_is_union};
pub use keys::Keys;
pub use lattice::{Lattice, join_repeats, joins_commute, joins_regroup, keeps_join_laws};
