//! Codecs of numbers in four or eight bytes, most significant first.

ghost use Rattle.std.specs.Prelude.{◌≡◌};
ghost use Rattle.bag_model.specs.Scalars.{IsUnsigned, IsSigned, fixed_bytes, sign_flipped, signed_fixed_bytes};

use crate::codec::{Codec, TakeFault};
use crate::fronts::{Front, whole};
use outside::Memory;
use std::alloc::Global;
use std::cmp::Ordering;

/// The codec of numbers from 0 in eight bytes, or in four where it isn't wide.
#[derive(Clone, Copy, Debug, PartialEq, Eq)]
pub struct Fixed {
    /// Whether numbers have 64 bits, else 32.
    pub wide: bool,
}

impl Codec for Fixed {
    ghost use Rattle.scalar_types.specs.OneCode.{code_one};
    ghost use Rattle.bag_model.proofs.NumberCodes.{fixed_code};

    type Value = u64;

    ghost fits = { λ codec number. IsUnsigned codec.wide number };

    ghost spelling = { λ codec number. fixed_bytes codec.wide number };

    ghost one_value = { λ codec. code_one (fixed_code codec.wide) };

    fn fits(&self, value: &u64) -> bool {
        let number = *value;
        self.wide || number <= u32::MAX as u64
    }

    fn put(&self, value: &u64, into: &mut Vec<u8>) -> Result<(), Memory> {
        if self.wide {
            into.extend_from_slice(&value.to_be_bytes())?;
        } else {
            into.extend_from_slice(&(*value as u32).to_be_bytes())?;
        }
        Ok(())
    }

    fn spelled(&self, bytes: &[u8]) -> bool {
        whole(self, bytes).is_some()
    }

    fn take(&self, _alloc: Global, bytes: &[u8]) -> Result<u64, TakeFault> {
        whole(self, bytes).ok_or(TakeFault::NotSpelled)
    }

    fn compare(&self, a: &u64, b: &u64) -> Ordering {
        a.cmp(b)
    }

    fn copy(&self, value: &u64) -> Result<u64, Memory> {
        Ok(*value)
    }

    fn copy_codec(&self) -> Result<Fixed, Memory> {
        Ok(*self)
    }
}

impl Front for Fixed {
    ghost use Rattle.bag_model.proofs.Codes.{code_rest};
    ghost use Rattle.bag_model.proofs.NumberCodes.{fixed_code};

    type Value = u64;

    ghost fits = { λ codec number. IsUnsigned codec.wide number };

    ghost spelling = { λ codec number. fixed_bytes codec.wide number };

    ghost one_rest = { λ codec. code_rest (fixed_code codec.wide) };

    fn front<'a>(&self, bytes: &'a [u8]) -> Option<(u64, &'a [u8])> {
        if self.wide {
            match bytes {
                [a, b, c, d, e, f, g, h, rest @ ..] => {
                    let number = u64::from_be_bytes([*a, *b, *c, *d, *e, *f, *g, *h]);
                    Some((number, rest))
                }
                _ => None,
            }
        } else {
            match bytes {
                [a, b, c, d, rest @ ..] => {
                    let number = u32::from_be_bytes([*a, *b, *c, *d]);
                    Some((number as u64, rest))
                }
                _ => None,
            }
        }
    }
}

/// The codec of numbers of either sign in eight bytes, or in four where it isn't wide: two's
/// complement with the sign bit flipped, so that the negative numbers come first.
#[derive(Clone, Copy, Debug, PartialEq, Eq)]
pub struct SignedFixed {
    /// Whether numbers have 64 bits, else 32.
    pub wide: bool,
}

impl SignedFixed {
    /// The codec of the bits with the sign bit flipped.
    fn flipped(&self) -> Fixed
        ensures { result.wide ≡ self.now.wide }
    {
        Fixed { wide: self.wide }
    }

    /// The bits of a number, with the sign bit flipped.
    fn bits(&self, number: i64) -> u64
        requires { IsSigned self.now.wide number }
        ensures { result ≡ sign_flipped self.now.wide number }
    {
        if self.wide {
            number.cast_unsigned().wrapping_add(1 << 63)
        } else {
            (number + (1 << 31)) as u64
        }
    }

    /// The number with these bits, the sign bit of which is flipped.
    fn number(&self, bits: u64) -> i64
        requires { IsUnsigned self.now.wide bits }
        ensures fits { IsSigned self.now.wide result }
        ensures same { sign_flipped self.now.wide result ≡ bits }
    {
        if self.wide {
            bits.wrapping_sub(1 << 63).cast_signed()
        } else {
            bits as i64 - (1 << 31)
        }
    }
}

impl Codec for SignedFixed {
    ghost use Rattle.scalar_types.specs.OneCode.{code_one};
    ghost use Rattle.bag_model.proofs.NumberCodes.{signed_fixed_code};

    type Value = i64;

    ghost fits = { λ codec number. IsSigned codec.wide number };

    ghost spelling = { λ codec number. signed_fixed_bytes codec.wide number };

    ghost one_value = { λ codec. code_one (signed_fixed_code codec.wide) };

    fn fits(&self, value: &i64) -> bool {
        let number = *value;
        self.wide || (i32::MIN as i64 <= number && number <= i32::MAX as i64)
    }

    fn put(&self, value: &i64, into: &mut Vec<u8>) -> Result<(), Memory> {
        self.flipped().put(&self.bits(*value), into)
    }

    fn spelled(&self, bytes: &[u8]) -> bool {
        whole(self, bytes).is_some()
    }

    fn take(&self, _alloc: Global, bytes: &[u8]) -> Result<i64, TakeFault> {
        whole(self, bytes).ok_or(TakeFault::NotSpelled)
    }

    fn compare(&self, a: &i64, b: &i64) -> Ordering {
        a.cmp(b)
    }

    fn copy(&self, value: &i64) -> Result<i64, Memory> {
        Ok(*value)
    }

    fn copy_codec(&self) -> Result<SignedFixed, Memory> {
        Ok(*self)
    }
}

impl Front for SignedFixed {
    ghost use Rattle.bag_model.proofs.Codes.{code_rest};
    ghost use Rattle.bag_model.proofs.NumberCodes.{signed_fixed_code};

    type Value = i64;

    ghost fits = { λ codec number. IsSigned codec.wide number };

    ghost spelling = { λ codec number. signed_fixed_bytes codec.wide number };

    ghost one_rest = { λ codec. code_rest (signed_fixed_code codec.wide) };

    fn front<'a>(&self, bytes: &'a [u8]) -> Option<(i64, &'a [u8])> {
        let (bits, rest) = self.flipped().front(bytes)?;
        Some((self.number(bits), rest))
    }
}
