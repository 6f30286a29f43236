//! That contexts and all that is in them may be sent to threads and shared between them.

use crate::builder::Builder;
use crate::contexts::Context;
use crate::lists::AtomList;
use crate::places::{Place, Walk};

/// Takes what may be sent and shared, and nothing else.
fn crosses_threads<T: Send + Sync>(_value: &T) {}

/// Compiles as long as contexts, their lists, builders, and walks with their places may be sent and
/// shared.
fn contexts_cross_threads(
    context: &Context,
    list: &AtomList,
    builder: &Builder,
    walk: &Walk<'_>,
    place: &Place,
) {
    crosses_threads(context);
    crosses_threads(list);
    crosses_threads(builder);
    crosses_threads(walk);
    crosses_threads(place);
}
