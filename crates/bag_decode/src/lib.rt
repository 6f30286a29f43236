//! What a context says of the fields of a table: values, read in one walk over the atoms. A walk
//! goes over the fields in order and through the list as it goes, so that it looks at each atom a
//! fixed number of times.
//!
//! ```rust
//! let value = decode_slot(alloc, &table, &context, slot)?;  // of a context that is typed under the table
//! ```
#![tactic(auto)]

mod bottoms;
mod decoding;
pub mod laws;
mod leaves;
mod slots;

pub use bottoms::{bottom, bottom_of};
pub use decoding::{decode, decode_field};
pub use slots::{decode_slot, slot_value};
