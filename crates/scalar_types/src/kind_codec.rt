//! The codec of each kind of scalars.

use crate::codec::{Codec, TakeFault};
use crate::kinds::ScalarKind;
use crate::packed::{fields_fit, fields_spelled, put_fields, take_fields};
use crate::scalars::Scalar;
use crate::word_codecs::WordCodec;
use outside::Memory;
use std::alloc::Global;
use std::cmp::Ordering;

impl Codec for ScalarKind {
    ghost use Rattle.bag_model.specs.Scalars.{IsScalarOf, spelling};
    ghost use Rattle.scalar_types.specs.KindViews.{kind_of};
    ghost use Rattle.scalar_types.specs.Scalars.{value_of};
    ghost use Rattle.scalar_types.specs.KindCodec.{kind_one};

    type Value = Scalar;

    ghost fits = { λ kind value. IsScalarOf (kind_of kind) (value_of value) };

    ghost spelling = { λ kind value. spelling (kind_of kind) (value_of value) };

    ghost one_value = { kind_one };

    fn fits(&self, value: &Scalar) -> bool {
        match (self, value) {
            (ScalarKind::One(word), value) => WordCodec::of(*word).fits(value),
            (ScalarKind::Packed(words), Scalar::Packed(values)) => {
                fields_fit(words.as_slice(), values.as_slice())
            }
            (ScalarKind::Packed(_), _) => false,
        }
    }

    fn put(&self, value: &Scalar, into: &mut Vec<u8>) -> Result<(), Memory> {
        match (self, value) {
            (ScalarKind::One(word), value) => WordCodec::of(*word).put(value, into),
            (ScalarKind::Packed(words), Scalar::Packed(values)) => {
                let mut spelling = Vec::new(*into.allocator());
                put_fields(words.as_slice(), values.as_slice(), &mut spelling)?;
                into.extend_from_slice(&spelling)?;
                Ok(())
            }
            (ScalarKind::Packed(_), _) => unreachable!(),
        }
    }

    fn spelled(&self, bytes: &[u8]) -> bool {
        match self {
            ScalarKind::One(word) => WordCodec::of(*word).spelled(bytes),
            ScalarKind::Packed(words) => fields_spelled(words.as_slice(), bytes),
        }
    }

    fn take(&self, alloc: Global, bytes: &[u8]) -> Result<Scalar, TakeFault> {
        match self {
            ScalarKind::One(word) => WordCodec::of(*word).take(alloc, bytes),
            ScalarKind::Packed(words) => {
                Ok(Scalar::Packed(take_fields(alloc, words.as_slice(), bytes)?))
            }
        }
    }

    fn compare(&self, a: &Scalar, b: &Scalar) -> Ordering {
        a.order(b)
    }

    fn copy(&self, value: &Scalar) -> Result<Scalar, Memory> {
        value.copy()
    }

    fn copy_codec(&self) -> Result<ScalarKind, Memory> {
        self.copy()
    }
}
