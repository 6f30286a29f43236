//! Calls from bytes to bytes, for programs that hold contexts as bytes: what is made is written
//! into the caller's room.
//!
//! ```rust
//! match join_into(alloc, Form::One, &inputs, 512, &mut room) {
//!     Ok(size) => channel.send(&room[..size]),
//!     Err(Refusal::Room { size }) => .. // nothing was written; `size` bytes are needed
//!     Err(refusal) => ..
//! }
//! ```
#![tactic(auto)]

mod calls;
mod contexts;
mod refusals;
mod room;
mod spans;

pub use calls::join_into;
pub use contexts::read_at;
pub use refusals::Refusal;
pub use room::{TooShort, write_front, write_into};
pub use spans::Span;
