//! Tables: the fields of a bag with all nested bags in place, their slots, and the views of
//! services.
//!
//! ```rust
//! let mut fields = Slots::new(alloc);
//! fields.add("tags", 1, Shape::Set(ScalarKind::One(ScalarWord::Str)))?;
//! let table = Table::of(fields);
//! table.find("tags")                                        // Some(0): the place of the slot
//! ```
#![tactic(auto)]

mod laws;
mod shapes;
mod sharing;
mod slot_paths;
mod tables;
mod views;

pub use laws::{name_paths_differ, ranges_are_exact};
pub use shapes::{Shape, Slot, Slots};
pub use slot_paths::SlotPath;
pub use tables::Table;
pub use views::{SlotSet, View};
