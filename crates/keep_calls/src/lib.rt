//! What may leave a trust boundary: of a context only what is below the slots of a table, by bytes
//! alone. All else is dropped, and markers tell of it where the caller wants that.
//!
//! ```rust
//! let kept = keep(alloc, Others::Cut, &table, &context)?;
//! match keep_into(alloc, Form::One, Others::Cut, table, &inputs, 512, &mut room) {
//!     Ok(size) => channel.send(&room[..size]),
//!     Err(refusal) => .. // nothing was written
//! }
//! ```
#![tactic(auto)]

mod calls;
mod gaps;
mod keeping;
pub mod laws;
mod others;
mod pieces;
mod refusals;

pub use calls::{keep_into, keep_under};
pub use keeping::keep;
pub use others::Others;
pub use refusals::KeepRefusal;
