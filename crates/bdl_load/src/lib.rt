//! The files of a baggage definition, from the name of its root, or the first fault of loading
//! them.
//!
//! ```rust
//! // the root, and all that it imports, each once
//! let files = load(alloc, &mut library, "request.bdl")?;
//! ```
#![tactic(auto)]

mod code_names;
mod faults;
mod files;
pub mod laws;
mod loader;
mod source;

pub use faults::{DefCode, DefFault, FIRST_SPOT, Fault, Finding};
pub use files::LoadedFile;
pub use loader::{FILES_MAX, load};
