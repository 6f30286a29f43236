//! Accessors for the slots of a table: by the name path of its slot, an accessor reads what a
//! context says of the slot, with whether that is whole, and makes the context that says one value
//! of the slot and nothing else.
//!
//! ```rust
//! let Some(tags) = accessor(alloc, &table, "tags")? else {
//!     ..                                                    // the table has no such slot
//! };
//! let reading = tags.get(alloc, &table, &context)?;         // its value, and whether that is exact
//! ```
#![tactic(auto)]

mod access;
mod finding;
pub mod laws;

pub use access::{Accessor, Reading};
pub use finding::{accessor, accessors};
