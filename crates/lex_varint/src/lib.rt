//! Numbers as byte strings whose order is the order of the numbers.
//!
//! An unsigned number has one code of one to nine bytes. The first byte begins with a one for each
//! byte that follows it and, where there is room, a zero; the other bits of all bytes are the
//! number, most significant first. A signed number from 0 on has the same code with one more one in
//! its first byte, where there is room: with eight bytes after it the first byte is `ff`, and no
//! signed code has seven. A negative number `n` has the code of `-1 - n` with each bit turned. Only
//! the shortest code of a number is valid, so no code begins another and each number has one.
//!
//! ```rust
//! put_u64(300).as_slice()              // [0x81, 0x2c]
//! take_u64(&[0x81, 0x2c, 0xff])        // Ok((300, 2)): the number, and how many bytes it took
//! take_u64(&[0x80, 0x2c])              // Err(VarintFault::LongForm): 44 has a code of one byte
//! ```
#![tactic(auto)]

ghost use Rattle.std.specs.Prelude.{◌≡◌, ◌≢◌, ◌↔◌, ℕ, ℤ, ◌+◌, ◌-◌, ◌*◌, ◌/◌, ◌^◌, ◌<◌, ◌≤◌, List, ◌∷◌, ◌++◌, length, map, pos, negsuc, if◌then◌else◌, ◌≤ℤ◌, unsigned_abs};
ghost use Rattle.context_model.specs.Varints.{big_endian, unsigned_tail, unsigned_varint, natural_form, natural_tail, signed_varint, complement};
ghost use Rattle.lex_varint.specs.Readings.{IsUnsignedAt, IsUnsignedCut, IsUnsignedLong, IsSignedAt, IsSignedCut, IsSignedLong, IsSignedOut, natural_demand, turned, with_sign};

use std::error::Error;
use std::fmt;
use std::marker::Model;

pub mod laws;

/// Why a byte string doesn't begin with a varint.
#[derive(Clone, Copy, Debug, PartialEq, Eq)]
pub enum VarintFault {
    /// The bytes end before the length that the first byte demands.
    Cut,
    /// The bytes are there, and their value has a shorter code.
    LongForm,
    /// The number doesn't fit 64 bits with a sign.
    OutOfRange,
}

impl fmt::Display for VarintFault {
    ghost use Rattle.std.specs.Prelude.{Some};
    ghost use Rattle.lex_varint.specs.FaultTexts.{varint_fault_text};

    ghost output = { λ fault. Some (varint_fault_text fault) };

    fn fmt<W: fmt::Write>(&self, f: &mut fmt::Formatter<W>) -> fmt::Result {
        match self {
            VarintFault::Cut => write!(f, "Cut"),
            VarintFault::LongForm => write!(f, "LongForm"),
            VarintFault::OutOfRange => write!(f, "OutOfRange"),
        }
    }
}

impl Error for VarintFault {}

/// The code of one number: one to nine bytes, held in place.
#[derive(Debug, Drop)]
pub struct Spelled {
    bytes: [u8; 9],
    len: usize,
}

impl Model for Spelled {
    ghost use Rattle.std.specs.Prelude.{List, ℕ, take, ◌≤◌};

    ghost Value = { List ℕ };

    ghost view = { λ s. take s.len s.bytes };

    ghost invariant = { λ s. s.len ≤ 9 };
}

impl Spelled {
    /// The bytes of the code.
    pub fn as_slice(&self) -> &[u8]
        ensures bytes { result.now ≡ self.now }
        ensures few { length result.now ≤ 9 }
    {
        &self.bytes[..self.len]
    }
}

/// The bytes that begin with 0 to 8 ones and then have zeros alone.
const ONES: [u8; 9] = [0, 0x80, 0xc0, 0xe0, 0xf0, 0xf8, 0xfc, 0xfe, 0xff];

/// The numbers from which on one byte more follows the first.
const UNSIGNED_LIMITS: [u64; 8] = [
    0x80,
    0x4000,
    0x20_0000,
    0x1000_0000,
    0x8_0000_0000,
    0x400_0000_0000,
    0x2_0000_0000_0000,
    0x100_0000_0000_0000,
];

/// The same for signed numbers from 0 on; at the last limit two bytes come at once.
const NATURAL_LIMITS: [u64; 8] = [
    0x40,
    0x2000,
    0x10_0000,
    0x800_0000,
    0x4_0000_0000,
    0x200_0000_0000,
    0x1_0000_0000_0000,
    0x1_0000_0000_0000,
];

/// How many bytes follow the first in the code of an unsigned number.
#[tactic(auto, unfolding(context_model::specs::Varints::unsigned_tail))]
fn unsigned_tail(value: u64) -> usize
    ensures { result ≡ unsigned_tail value }
{
    UNSIGNED_LIMITS
        .iter()
        .filter(|limit| **limit <= value)
        .count()
}

/// How many bytes follow the first in the code of a signed number from 0 on.
#[tactic(auto, unfolding(context_model::specs::Varints::natural_tail))]
fn natural_tail(value: u64) -> usize
    ensures { result ≡ natural_tail value }
{
    NATURAL_LIMITS
        .iter()
        .filter(|limit| **limit <= value)
        .count()
}

/// A first byte that holds `ones` and the highest bits of the value, and then the value's `follows`
/// lowest bytes.
fn code_of(ones: u8, follows: usize, value: u64) -> Spelled
    requires few { follows ≤ 8 }
    requires room { ones + value / 256 ^ follows < 256 }
    ensures { result ≡ (ones + value / 256 ^ follows) ∷ big_endian follows value }
{
    let digits = value.to_be_bytes();
    let high = if follows < 8 { digits[7 - follows] } else { 0 };
    let mut bytes = [0; 9];
    bytes[0] = ones + high;
    bytes[1..follows + 1].copy_from_slice(&digits[8 - follows..]);
    Spelled {
        bytes,
        len: follows + 1,
    }
}

/// The code of an unsigned number.
pub fn put_u64(value: u64) -> Spelled
    ensures { result ≡ unsigned_varint value }
{
    let follows = unsigned_tail(value);
    code_of(ONES[follows], follows, value)
}

/// The code of a signed number from 0 on.
fn put_natural(value: u64) -> Spelled
    ensures { result ≡ natural_form (natural_tail value) value }
{
    let follows = natural_tail(value);
    code_of(ONES[(follows + 1).min(8)], follows, value)
}

/// The code with each bit turned.
fn turned_code(code: Spelled) -> Spelled
    ensures { result ≡ complement code }
{
    let Spelled { mut bytes, len } = code;
    for byte in bytes.iter_mut() {
        *byte = !*byte;
    }
    Spelled { bytes, len }
}

/// The code of a signed number.
pub fn put_i64(value: i64) -> Spelled
    ensures { result ≡ signed_varint value }
{
    if value < 0 {
        turned_code(put_natural((-1 - value) as u64))
    } else {
        put_natural(value as u64)
    }
}

/// The byte with each bit turned where `negative`.
fn turned_byte(byte: u8, negative: bool) -> u8
    ensures { result ≡ (if negative then 255 - byte else byte) }
{
    if negative { !byte } else { byte }
}

/// The number that the bytes spell after `high`, most significant first, each with its bits turned
/// where `negative`.
fn number_behind(high: u64, bytes: &[u8], negative: bool) -> u64
    requires { (high + 1) * 256 ^ length bytes.now ≤ 2 ^ 64 }
    ensures low { big_endian (length bytes.now) result ≡ turned negative bytes.now }
    ensures high { result / 256 ^ length bytes.now ≡ high }
{
    let mut number = high;
    for byte in bytes {
        let digit = turned_byte(*byte, negative);
        number = number * 256 + digit as u64;
    }
    number
}

/// Reads the code of an unsigned number at the beginning of the bytes, and answers the number and
/// how many bytes it takes. All that nine bytes can hold fits.
pub fn take_u64(bytes: &[u8]) -> Result<(u64, usize), VarintFault>
    ensures taken { (n count : ℕ) → (result ≡ Ok (n, count)) ↔ IsUnsignedAt bytes.now n count }
    ensures cut { (result ≡ Err VarintFault.Cut) ↔ IsUnsignedCut bytes.now }
    ensures long { (result ≡ Err VarintFault.LongForm) ↔ IsUnsignedLong bytes.now }
    ensures in_range { result ≢ Err VarintFault.OutOfRange }
{
    let Some((first, rest)) = bytes.split_first() else {
        return Err(VarintFault::Cut);
    };
    let follows = first.leading_ones() as usize;
    if rest.len() < follows {
        return Err(VarintFault::Cut);
    }
    let high = first - ONES[follows];
    let value = number_behind(high as u64, &rest[..follows], false);
    if unsigned_tail(value) < follows {
        return Err(VarintFault::LongForm);
    }
    Ok((value, follows + 1))
}

/// The number, or where `negative` the one on the other side of zero.
fn signed(number: i64, negative: bool) -> i64
    requires { pos 0 ≤ℤ number }
    ensures { result ≡ with_sign negative (unsigned_abs number) }
{
    if negative { -1 - number } else { number }
}

/// How many bytes the first byte of a signed number from 0 on demands after it.
fn natural_demand(first: u8) -> usize
    requires { 128 ≤ first }
    ensures { result ≡ natural_demand first }
{
    let ones = first.leading_ones() as usize;
    if ones == 8 { 8 } else { ones - 1 }
}

/// Reads the code of a signed number at the beginning of the bytes, and answers the number and how
/// many bytes it takes.
pub fn take_i64(bytes: &[u8]) -> Result<(i64, usize), VarintFault>
    ensures taken { (z : ℤ) (count : ℕ) → (result ≡ Ok (z, count)) ↔ IsSignedAt bytes.now z count }
    ensures cut { (result ≡ Err VarintFault.Cut) ↔ IsSignedCut bytes.now }
    ensures long { (result ≡ Err VarintFault.LongForm) ↔ IsSignedLong bytes.now }
    ensures out { (result ≡ Err VarintFault.OutOfRange) ↔ IsSignedOut bytes.now }
{
    let Some((first, rest)) = bytes.split_first() else {
        return Err(VarintFault::Cut);
    };
    let negative = *first < 0x80;
    let first = turned_byte(*first, negative);
    let follows = natural_demand(first);
    if rest.len() < follows {
        return Err(VarintFault::Cut);
    }
    let high = first - ONES[(follows + 1).min(8)];
    let number = number_behind(high as u64, &rest[..follows], negative);
    if natural_tail(number) < follows {
        return Err(VarintFault::LongForm);
    }
    let Ok(number) = i64::try_from(number) else {
        return Err(VarintFault::OutOfRange);
    };
    Ok((signed(number, negative), follows + 1))
}
