//! That tables and all that is in them may be sent to threads and shared between them.

use crate::shapes::{Shape, Slot, Slots};
use crate::slot_paths::SlotPath;
use crate::tables::Table;
use crate::views::{SlotSet, View};

/// Takes what may be sent and shared, and nothing else.
fn crosses_threads<T: Send + Sync>(_value: &T) {}

/// Compiles as long as tables with their fields and shapes, paths of slots, and views may be sent
/// and shared.
fn tables_cross_threads(table: &Table, slots: &Slots, slot: &Slot, shape: &Shape, path: &SlotPath) {
    crosses_threads(table);
    crosses_threads(slots);
    crosses_threads(slot);
    crosses_threads(shape);
    crosses_threads(path);
}

/// The same of views and their sets of slots.
fn views_cross_threads(view: &View, set: &SlotSet) {
    crosses_threads(view);
    crosses_threads(set);
}
