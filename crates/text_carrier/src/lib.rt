//! Bytes as lines of text: cut into numbered pieces, a line for each, and read back from lines in
//! any order.
//!
//! ```rust
//! let lines = carry(alloc, &bytes, 64)?;                    // `p PLACE COUNT BASE64`, 64 bytes a line
//! let bytes = collect(alloc, &lines)?;                      // whatever their order and repeats
//! ```
#![tactic(auto)]

mod carrying;
mod collecting;
mod data;
mod faults;
pub mod laws;
mod lines;
mod pieces;
mod round_trip;

pub use carrying::carry;
pub use collecting::collect;
pub use faults::{CarryCode, CarryFault};
pub use round_trip::carry_and_collect;

/// The least width of [`carry`], in bytes: each piece but the last has as many.
pub const WIDTH_MIN: usize = 4;

/// The greatest width of [`carry`], in bytes.
pub const WIDTH_MAX: usize = 300;

/// The most bytes that [`carry`] takes and [`collect`] puts together.
pub const CARRIED_MAX: usize = 1_048_576;

/// The most pieces: those of [`CARRIED_MAX`] bytes at the width [`WIDTH_MIN`].
pub const PIECES_MAX: u64 = 262_144;
