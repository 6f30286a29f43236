//! That sets of scalars may be sent to threads and shared between them.

use crate::set_of::SetOf;
use scalar_types::ScalarKind;

/// Takes what may be sent and shared, and nothing else.
fn crosses_threads<T: Send + Sync>(_value: &T) {}

/// Compiles as long as sets of scalars may be sent and shared.
fn sets_cross_threads(set: &SetOf<ScalarKind>) {
    crosses_threads(set);
}
