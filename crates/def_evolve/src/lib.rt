//! Whether a definition may take the place of an older one: what contexts that were written under
//! the old table say under the new one. Fields are matched by number; names don't matter.
//!
//! `evolve` gives the verdict. Where the new table fits, each slot that both tables have says under
//! the new one what agrees with what it says under the old one, of every context of the old table
//! and in every graph. It doesn't say that each such context is typed under the new table:
//! something that the old table doesn't name may be where the new one has a field.
//!
//! ```rust
//! match evolve(alloc, &old, &new)? {
//!     Verdict::Fits { common } => ..           // so many slots are in both
//!     Verdict::Breaks { path, change } => ..   // the first field that may not change so
//! }
//! ```
//!
//! `breaks` gives the list of all fields that break, of which `evolve` reports the first: for each
//! the way to it, the reason, and the names and the types that both tables have there.
#![tactic(auto)]

mod all_breaks;
mod common;
mod evolution;
pub mod laws;
mod sides;
mod verdicts;
mod widening;

pub use all_breaks::{Break, breaks};
pub use evolution::evolve;
pub use sides::Side;
pub use verdicts::{Change, Part, Verdict};
