//! Values of a table laid out over atoms.
//!
//! A field is an indexed header with its number, and its value is under it: a datum with an empty
//! payload for a taint that is on, one datum with its spelling for a scalar and for each element of
//! a set, and a keyed header of the next level for each writer of a counter and each key of a map,
//! with the count or the value under it. The fields of a bag in a field are under that field's
//! header, one level further in. A field that is bottom has no header, and a key always has one.
//!
//! ```rust
//! let context = encode(alloc, &table, &value)?;             // says the value, and nothing else
//! let write = encode_slot(alloc, &table, slot, &value)?;    // one slot alone, to be merged into a context
//! ```
#![tactic(auto)]

mod encoding;
mod growing_list;
pub mod laws;
mod slots;
mod values;

pub use encoding::encode;
pub use slots::encode_slot;
