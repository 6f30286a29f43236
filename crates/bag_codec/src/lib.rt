//! One door to the codec of bags: values under a table, and the contexts that carry them.
//!
//! A `Table` holds the fields of a bag. A value of the bag is a `Val::Bag` with a `Val` for each
//! field, put together by `Vals` and `Entries`. `bottom` is the one that says nothing, and
//! `can_encode` tells whether a value fits the table.
//!
//! - `encode` lays a value out as a context, whose bytes may travel.
//! - `merge` and `merge_many` put contexts together, in any order and without the table. What is
//!   read of a merge is the join of what is read of its parts, as `merge_and_read` shows.
//! - `check_typed` tells whether a context from outside is spelled as the table says, or which atom
//!   isn't. After it `decode` reads the whole bag and `decode_slot` one slot; `spans_of` and
//!   `slot_value` read all slots one after another.
//! - `state_of` tells whether what a context says of a slot is whole, or may have been cut off.
//! - `normal` takes out the data to which others are preferred: the same is read of what is left.
//!
//! ```rust
//! match check_typed(&table, &received) {
//!     Ok(()) => decode(alloc, &table, &received)?,   // the value, a field each
//!     Err(place) => ..                               // the first atom that isn't spelled as its type says
//! }
//! ```
#![tactic(auto)]

mod encodable;
pub mod laws;
mod lengths;
mod normal_readings;
mod readings;

pub use bag_decode::{bottom, bottom_of, decode, decode_field, decode_slot, slot_value};
pub use bag_encode::encode;
pub use bag_normal::normal;
pub use bag_scan::{Span, State, first_marker, spans_of, state_of};
pub use bag_typed::check_typed;
pub use bag_value::{Entries, Entry, ScalarSet, Val, Vals};
pub use encodable::can_encode;
pub use lex_merge::{merge, merge_many};
pub use normal_readings::{normal_and_read, normal_and_states};
pub use readings::{encode_and_read, merge_and_read};
