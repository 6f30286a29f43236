//! The greatest of the values of a codec.

ghost use Rattle.set_map_types.specs.Picks.{HeldOne, IsLastOfBoth, against_spelling, by_spelling, one_joined};

use crate::picked::{Pick, Picked};
use scalar_types::Codec;
use std::cmp::Ordering;

/// The pick of the value that comes last in the codec's order.
#[derive(Drop)]
pub struct Last;

impl<C: Codec> Pick<C> for Last {
    ghost use Rattle.set_map_types.specs.Picks.{against_spelling};
    ghost use Rattle.set_map_types.specs.SetAndMapLaws.{against_exact, against_total};

    ghost order = { against_spelling C.spelling };

    ghost total = { λ c. against_total (C.fits c) (C.spelling c) (C.one_value c) };

    ghost exact = { λ c. against_exact (C.fits c) (C.spelling c) (C.one_value c) };

    fn compare(codec: &C, a: &C::Value, b: &C::Value) -> Ordering {
        codec.compare(b, a)
    }
}

/// A value of a codec, or none. Contracts see it as its codec and the value, which fits the codec.
/// A join keeps the value that comes last in the codec's order.
pub type Greatest<C> = Picked<C, Last>;

/// A join keeps the greatest of both values: it is one of them, and none of them is greater. It has
/// none where neither has one.
pub fn greatest_join_is_last<C: Codec>()
    ensures { (s t : HeldOne C C.Value)
        → IsLastOfBoth (by_spelling C.spelling s.codec) s.value t.value
        (one_joined (against_spelling C.spelling) s t).value }
{}
