//! Values of fields of every shape with their join, and the laws of what lists of atoms say of
//! them.
//!
//! A [`Val`] is what a field holds, and a bag's value has one for each of its fields ([`Vals`]).
//!
//! ```rust
//! value.join(&other)?;                                      // what both say; they are of one shape
//! value.is_bottom()                                         // whether it says nothing
//! ```
#![tactic(auto)]

mod copies;
mod in_place;
mod joins;
pub mod laws;
mod lists;
mod merges;
mod moves;
mod sharing;
mod vals;

pub use lists::{Entries, Entry, Vals};
pub use vals::{ScalarSet, Val};
