//! Merges and cuts of contexts in the caller's bytes, for services that know no type: the inputs
//! are looked at where they are, and the result is written into the caller's buffer. No call takes
//! memory; each can fail only by its inputs and by the length of the buffer.
//!
//! ```rust
//! match forward_bytes(Form::One, first, second, 512, &mut room) {
//!     Ok(size) => channel.send(&room[..size]),
//!     Err(ByteRefusal::Room { size }) => .. // nothing was written; `size` bytes are needed
//!     Err(ByteRefusal::Fault { context, offset, code }) => ..
//! }
//! ```
#![tactic(auto)]

mod calls;
mod cutting;
mod filling;
pub mod laws;
mod merging;
mod refusals;
mod runs;

pub use calls::{forward_bytes, merge_bytes, trim_bytes};
pub use refusals::ByteRefusal;
