//! That kinds, values and lists of them may be sent to threads and shared between them.

use crate::kinds::{KindList, ScalarKind};
use crate::scalars::{Scalar, ScalarList};

/// Takes what may be sent and shared, and nothing else.
fn crosses_threads<T: Send + Sync>(_value: &T) {}

/// Compiles as long as kinds and values, and lists of them, may be sent and shared.
fn scalars_cross_threads(
    kind: &ScalarKind,
    kinds: &KindList,
    scalar: &Scalar,
    scalars: &ScalarList,
) {
    crosses_threads(kind);
    crosses_threads(kinds);
    crosses_threads(scalar);
    crosses_threads(scalars);
}
