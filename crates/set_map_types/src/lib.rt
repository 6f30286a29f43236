//! Scalars, sets and maps over any codec, as values that are joined.
//!
//! ```rust
//! let mut tags = SetOf::of(alloc, Utf8, Text::of(alloc, "a")?)?;
//! tags.join(&SetOf::of(alloc, Utf8, Text::of(alloc, "b")?)?)?;   // both of them
//! let price = Least::of(LexU { wide: false }, 1299)?;            // of several the least stays
//! ```
#![tactic(auto)]

mod codec_keys;
mod greatest;
mod least;
mod map_of;
mod picked;
mod set_of;
mod sharing;

pub use greatest::{Greatest, greatest_join_is_last};
pub use least::{Least, least_join_is_first};
pub use map_of::{MapOf, map_join_is_union};
pub use set_of::{SetOf, set_join_is_union};
