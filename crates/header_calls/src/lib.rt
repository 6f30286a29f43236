//! Headers in and out, for programs that hold contexts as bytes: a context becomes the value of a
//! header in the caller's room, and what the values of a header carry becomes a context there.
//!
//! ```rust
//! let size = to_header_into(&context, &mut room)?;                          // `DATA.CHECK`
//! let came = extract_into(alloc, Form::One, Absent::Lost, &values, 3000, &mut room)?;
//! if came.lost > 0 { .. }                                                    // a part couldn't be read
//! ```
#![tactic(auto)]

mod extracting;
pub mod laws;
mod values;
mod writing;

pub use extracting::{Absent, Extracted, extract_into};
pub use writing::to_header_into;
