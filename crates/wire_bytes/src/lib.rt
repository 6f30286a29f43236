//! Lists of atoms as bytes, in two forms. In form one each atom follows its length in base 128, the
//! least significant group first. In form two each atom follows its length as a varint, and all of
//! them follow a head: four bytes that mark the form, and the number of bytes after the head, as
//! eight bytes, most significant first. A list with an atom above [`LENGTH_MAX`] bytes is always
//! written in form two.
//!
//! ```rust
//! let context = read_context(alloc, bytes)?;                // or the first fault, with its offset
//! let sent = write(alloc, Form::One, context.list())?;      // its bytes again
//! ```
#![tactic(auto)]

mod contexts;
mod heads;
pub mod laws;
mod lengths;
mod reading;
mod writing;

pub use context_model::{Form, LENGTH_MAX};
pub use contexts::{ByteCode, ContextFault, read_context, read_context_owned, reads_one_context};
pub use heads::{MARK, check_head, form_of};
pub use reading::{WireCode, WireFault, first_frame, read, read_owned, reads_one_way};
pub use writing::{frame_len, offset, size, write};
