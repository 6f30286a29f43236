//! Contexts in the caller's bytes: a walk over the frames of their atoms, and a check that finds
//! the first fault. Neither makes a list, and neither takes memory.
//!
//! ```rust
//! let count = check_bytes(received)?;                        // or the first fault, with its offset
//! let mut frames = Frames::of(received);
//! while let Some(frame) = frames.next_frame() {
//!     count_bytes(frame.atom);
//! }
//! ```
#![tactic(auto)]

mod checks;
mod frames;
mod open_atoms;
mod surveys;

pub use checks::{ByteFault, check_bytes, survey};
pub use frames::{Frame, Frames};
pub use surveys::Survey;
