//! The values of a codec as keys of entries.

use counter_type::Keys;
use outside::Memory;
use scalar_types::Codec;
use std::cmp::Ordering;

/// The values of a codec, in the codec's order.
#[derive(Clone, Copy)]
pub(crate) struct CodecKeys<'a, C: Codec>(pub(crate) &'a C);

impl<C: Codec> Keys for CodecKeys<'_, C> {
    ghost use Rattle.set_map_types.specs.SetsAndMaps.{value_cmp};
    ghost use Rattle.set_map_types.specs.SetAndMapLaws.{value_cmp_exact, value_cmp_total};

    type Key = C::Value;

    ghost fits = { λ keys. C.fits keys.0.now };

    ghost order = { λ keys. value_cmp (C.spelling keys.0.now) };

    ghost total = { λ keys. value_cmp_total (C.fits keys.0.now) (C.spelling keys.0.now) (C.one_value keys.0.now) };

    ghost exact = { λ keys. value_cmp_exact (C.fits keys.0.now) (C.spelling keys.0.now) (C.one_value keys.0.now) };

    fn compare(&self, a: &C::Value, b: &C::Value) -> Ordering {
        self.0.compare(a, b)
    }

    fn copy_key(&self, key: &C::Value) -> Result<C::Value, Memory> {
        self.0.copy(key)
    }
}
