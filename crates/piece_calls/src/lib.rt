//! Contexts as lines of text, for programs that hold both as bytes: a context's bytes become
//! numbered lines in the caller's room, and lines in any order become its bytes again.
//!
//! ```rust
//! let size = carry_into(alloc, &context, 64, &mut room)?;          // `p PLACE COUNT BASE64`, 64 bytes a line
//! let size = collect_into(alloc, &lines, &mut room)?;              // whatever their order and repeats
//! ```
#![tactic(auto)]

mod carrying;
mod collecting;
pub mod laws;
mod quoting;
mod refusals;

pub use carrying::carry_into;
pub use collecting::collect_into;
pub use quoting::{Literal, quote_into};
pub use refusals::{PieceCode, PieceRefusal};
pub use text_carrier::{CARRIED_MAX, WIDTH_MAX, WIDTH_MIN};
