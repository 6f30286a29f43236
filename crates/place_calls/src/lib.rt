//! Where the fields of a context are in its own bytes, for programs that read values themselves.
//! Nothing is copied, and no text is made.
//!
//! ```rust
//! let (form, slots) = places_into(alloc, table, &received, &mut places)?; // one for each slot
//! // the frames of the first slot's atoms
//! let part = &received[places[0].offset..][..places[0].length];
//! ```
#![tactic(auto)]

mod chosen;
mod finding;
mod found;
pub mod laws;
mod places;
mod refusals;

pub use chosen::{chosen_places_into, chosen_places_under};
pub use finding::{places_into, places_under};
pub use places::{EXACT, ILL_TYPED, PARTIAL, Place};
pub use refusals::PlaceRefusal;
