//! Lists of atoms, and contexts: lists that are well formed.
//!
//! An [`AtomList`] holds its atoms in one buffer, which copies share; a [`Builder`] makes one in
//! room that was taken first, and a [`Scan`] over bytes that are there. [`Context::check`] tells
//! where a list first ceases to be a context.
//!
//! ```rust
//! let mut builder = Builder::with_room(alloc, 64, 2)?;
//! builder.push(&[0xf8, 0x00]);         // the header of field 0
//! builder.push(&[0x00, 0x07]);         // a datum under it
//! match Context::check(builder.finish()?) {
//!     Ok(context) => context.ended(&[0]), // nothing was cut from field 0
//!     Err((fault, at, list)) => ..        // what is wrong, at which atom, and the list again
//! }
//! ```
#![tactic(auto)]

mod builder;
mod contexts;
mod ended;
mod fronts;
mod iter;
pub mod laws;
mod lengths;
mod lists;
mod open_places;
mod pieces;
mod places;
mod scan;
mod shape_faults;
mod sharing;
mod starts;

pub use builder::Builder;
pub use contexts::{Context, ShapeFault};
pub use iter::Atoms;
pub use lists::AtomList;
pub use places::{Place, Walk};
pub use scan::Scan;
