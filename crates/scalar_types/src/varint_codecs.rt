//! Codecs of numbers as varints: the shorter a number, the fewer bytes.

ghost use Rattle.std.specs.Prelude.{IsTrue, ◌↔◌};
ghost use Rattle.context_model.specs.Varints.{unsigned_varint, signed_varint};
ghost use Rattle.bag_model.specs.Scalars.{IsUnsigned, IsSigned};

use crate::codec::{Codec, TakeFault};
use crate::fronts::{Front, whole};
use lex_varint::{put_i64, put_u64, take_i64, take_u64};
use outside::Memory;
use std::alloc::Global;
use std::cmp::Ordering;

/// The codec of numbers from 0, as unsigned varints.
#[derive(Clone, Copy, Debug, PartialEq, Eq)]
pub struct LexU {
    /// Whether numbers have 64 bits, else 32.
    pub wide: bool,
}

impl LexU {
    /// Whether the number fits into 64 bits where the kind is wide, and into 32 otherwise.
    fn in_range(&self, number: u64) -> bool
        ensures { IsTrue result ↔ IsUnsigned self.now.wide number }
    {
        self.wide || number <= u32::MAX as u64
    }
}

impl Codec for LexU {
    ghost use Rattle.scalar_types.specs.OneCode.{code_one};
    ghost use Rattle.bag_model.proofs.NumberCodes.{unsigned_code};

    type Value = u64;

    ghost fits = { λ codec number. IsUnsigned codec.wide number };

    ghost spelling = { λ _ number. unsigned_varint number };

    ghost one_value = { λ codec. code_one (unsigned_code codec.wide) };

    fn fits(&self, value: &u64) -> bool {
        self.in_range(*value)
    }

    fn put(&self, value: &u64, into: &mut Vec<u8>) -> Result<(), Memory> {
        into.extend_from_slice(put_u64(*value).as_slice())?;
        Ok(())
    }

    fn spelled(&self, bytes: &[u8]) -> bool {
        whole(self, bytes).is_some()
    }

    fn take(&self, _alloc: Global, bytes: &[u8]) -> Result<u64, TakeFault> {
        whole(self, bytes).ok_or(TakeFault::NotSpelled)
    }

    fn compare(&self, a: &u64, b: &u64) -> Ordering {
        a.cmp(b)
    }

    fn copy(&self, value: &u64) -> Result<u64, Memory> {
        Ok(*value)
    }

    fn copy_codec(&self) -> Result<LexU, Memory> {
        Ok(*self)
    }
}

impl Front for LexU {
    ghost use Rattle.bag_model.proofs.Codes.{code_rest};
    ghost use Rattle.bag_model.proofs.NumberCodes.{unsigned_code};

    type Value = u64;

    ghost fits = { λ codec number. IsUnsigned codec.wide number };

    ghost spelling = { λ _ number. unsigned_varint number };

    ghost one_rest = { λ codec. code_rest (unsigned_code codec.wide) };

    fn front<'a>(&self, bytes: &'a [u8]) -> Option<(u64, &'a [u8])> {
        match take_u64(bytes) {
            Ok((number, count)) => {
                if self.in_range(number) {
                    Some((number, &bytes[count..]))
                } else {
                    None
                }
            }
            Err(_) => None,
        }
    }
}

/// The codec of numbers of either sign, as signed varints.
#[derive(Clone, Copy, Debug, PartialEq, Eq)]
pub struct LexI {
    /// Whether numbers have 64 bits, else 32.
    pub wide: bool,
}

impl LexI {
    /// Whether the number fits into 64 bits where the kind is wide, and into 32 otherwise.
    fn in_range(&self, number: i64) -> bool
        ensures { IsTrue result ↔ IsSigned self.now.wide number }
    {
        self.wide || (i32::MIN as i64 <= number && number <= i32::MAX as i64)
    }
}

impl Codec for LexI {
    ghost use Rattle.scalar_types.specs.OneCode.{code_one};
    ghost use Rattle.bag_model.proofs.NumberCodes.{signed_code};

    type Value = i64;

    ghost fits = { λ codec number. IsSigned codec.wide number };

    ghost spelling = { λ _ number. signed_varint number };

    ghost one_value = { λ codec. code_one (signed_code codec.wide) };

    fn fits(&self, value: &i64) -> bool {
        self.in_range(*value)
    }

    fn put(&self, value: &i64, into: &mut Vec<u8>) -> Result<(), Memory> {
        into.extend_from_slice(put_i64(*value).as_slice())?;
        Ok(())
    }

    fn spelled(&self, bytes: &[u8]) -> bool {
        whole(self, bytes).is_some()
    }

    fn take(&self, _alloc: Global, bytes: &[u8]) -> Result<i64, TakeFault> {
        whole(self, bytes).ok_or(TakeFault::NotSpelled)
    }

    fn compare(&self, a: &i64, b: &i64) -> Ordering {
        a.cmp(b)
    }

    fn copy(&self, value: &i64) -> Result<i64, Memory> {
        Ok(*value)
    }

    fn copy_codec(&self) -> Result<LexI, Memory> {
        Ok(*self)
    }
}

impl Front for LexI {
    ghost use Rattle.bag_model.proofs.Codes.{code_rest};
    ghost use Rattle.bag_model.proofs.NumberCodes.{signed_code};

    type Value = i64;

    ghost fits = { λ codec number. IsSigned codec.wide number };

    ghost spelling = { λ _ number. signed_varint number };

    ghost one_rest = { λ codec. code_rest (signed_code codec.wide) };

    fn front<'a>(&self, bytes: &'a [u8]) -> Option<(i64, &'a [u8])> {
        match take_i64(bytes) {
            Ok((number, count)) => {
                if self.in_range(number) {
                    Some((number, &bytes[count..]))
                } else {
                    None
                }
            }
            Err(_) => None,
        }
    }
}
