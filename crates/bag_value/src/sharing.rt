//! That values may be sent to threads and shared between them.

use crate::lists::{Entries, Entry, Vals};
use crate::vals::Val;

/// Takes what may be sent and shared, and nothing else.
fn crosses_threads<T: Send + Sync>(_value: &T) {}

/// Compiles as long as values and lists of them may be sent and shared.
fn values_cross_threads(value: &Val, entry: &Entry, entries: &Entries, values: &Vals) {
    crosses_threads(value);
    crosses_threads(entry);
    crosses_threads(entries);
    crosses_threads(values);
}
