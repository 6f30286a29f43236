//! Searches over the atoms of a list: where data and what is below a header end, and where the
//! header of a field or of a key is. Each goes on from a place, so that a walk over a table looks
//! at each atom a fixed number of times.
//!
//! ```rust
//! state_of(&table, &context, slot)                          // State::Exact, or State::Partial where something may have been cut off
//! ```
#![tactic(auto)]

mod data;
mod headers;
mod parts;
mod searches;
mod spans;
mod states;

pub use data::{first_datum, is_datum, last_datum};
pub use headers::next_field;
pub use parts::{atom, data_end, segment_end};
pub use searches::{find_field, find_key};
pub use spans::{Span, spans_of};
pub use states::{State, first_marker, state_of};
