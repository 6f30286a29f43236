//! A context as the value of a header, and back: the text of its bytes with a check, so that one
//! that was cut or damaged on the way is known.
//!
//! ```rust
//! write_text(&bytes, &mut room[..text_len(bytes.len())]);    // `DATA.CHECK`
//! let (part, rest) = cut_part(value);                        // up to a comma, without blanks
//! match read_part(alloc, part)? {
//!     Some(context) => ..
//!     None => ..                                             // it carries no context: it is lost
//! }
//! ```
#![tactic(auto)]

mod check;
pub mod laws;
mod parts;
mod reading;
mod texts;

pub use check::crc32;
pub use parts::cut_part;
pub use reading::{lost_context, read_part};
pub use texts::{text_len, write_text};
