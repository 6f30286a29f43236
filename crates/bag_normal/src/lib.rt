//! Normal form: a context without the data to which others of their place are preferred.
//!
//! Where there are several data for one value, only the one that is read stays: of a scalar the
//! least or the greatest, of a counter's writer the greatest. What isn't known by the view stays as
//! it is.
//!
//! ```rust
//! let context = normal(alloc, &table, &View::All, context)?;
//! ```
#![tactic(auto)]

mod data;
mod fields;
mod known;
mod normal_form;

pub use normal_form::normal;
