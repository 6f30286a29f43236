//! The least of the values of a codec.

ghost use Rattle.set_map_types.specs.Picks.{HeldOne, IsFirstOfBoth, by_spelling, one_joined};

use crate::picked::{Pick, Picked};
use scalar_types::Codec;
use std::cmp::Ordering;

/// The pick of the value that comes first in the codec's order.
#[derive(Drop)]
pub struct First;

impl<C: Codec> Pick<C> for First {
    ghost use Rattle.set_map_types.specs.Picks.{by_spelling};
    ghost use Rattle.set_map_types.specs.SetAndMapLaws.{value_cmp_exact, value_cmp_total};

    ghost order = { by_spelling C.spelling };

    ghost total = { λ c. value_cmp_total (C.fits c) (C.spelling c) (C.one_value c) };

    ghost exact = { λ c. value_cmp_exact (C.fits c) (C.spelling c) (C.one_value c) };

    fn compare(codec: &C, a: &C::Value, b: &C::Value) -> Ordering {
        codec.compare(a, b)
    }
}

/// A value of a codec, or none. Contracts see it as its codec and the value, which fits the codec.
/// A join keeps the value that comes first in the codec's order.
pub type Least<C> = Picked<C, First>;

/// A join keeps the least of both values: it is one of them, and none of them is less. It has none
/// where neither has one.
pub fn least_join_is_first<C: Codec>()
    ensures { (s t : HeldOne C C.Value)
        → IsFirstOfBoth (by_spelling C.spelling s.codec) s.value t.value
        (one_joined (by_spelling C.spelling) s t).value }
{}
