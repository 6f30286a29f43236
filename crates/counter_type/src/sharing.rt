//! That counts may be sent to threads and shared between them.

use crate::counts::Counts;

/// Takes what may be sent and shared, and nothing else.
fn crosses_threads<T: Send + Sync>(_value: &T) {}

/// Compiles as long as counts may be sent and shared.
fn counts_cross_threads(counts: &Counts) {
    crosses_threads(counts);
}
