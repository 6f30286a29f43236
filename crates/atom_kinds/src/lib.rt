//! The kinds of atoms, which are byte strings, by their first byte.
//!
//! The empty atom is a marker, and the byte `00` begins a datum, whose payload may be any bytes. A
//! header of level 0 to 15 is indexed, `80 + 8 * (15 - level)` and then one varint, or keyed,
//! `81 + 8 * (15 - level)` and then any bytes as its key. No other byte begins an atom.
//!
//! ```rust
//! kind_of(&[0xf8, 0x05])               // Ok(Kind::Indexed { level: 0, number: 5 })
//! kind_of(b"")                         // Ok(Kind::Marker)
//! let header = indexed(alloc, 0, 5)?;  // the bytes f8 05
//! ```
#![tactic(auto)]

ghost use Rattle.std.specs.Prelude.{◌≡◌, ◌↔◌, ◌-◌, ◌/◌, ℕ, ◌^◌, ◌<◌, ◌≤◌, ◌∷◌, drop, false, length, IfOk, MatchOption};
ghost use Rattle.context_model.specs.Kinds.{atom_of, HasBadPrefix, HasBadIndex};
ghost use Rattle.context_model.specs.Kinds.Kind.{Datum as PlainDatum, Indexed as PlainIndexed, Keyed as PlainKeyed};
ghost use Rattle.context_model.specs.Varints.{unsigned_varint};
ghost use Rattle.context_model.specs.Orders.{atom_cmp};
ghost use Rattle.context_model.specs.Paths.{is_header};
ghost use Rattle.atom_kinds.specs.Kinds.{TellsKind, IsHeaderOfLevel, IsNumberCode};
ghost use Rattle.atom_kinds.specs.declared.Kind.{Kind as AnyKind};

use context_model::LEVELS_MAX;
use lex_varint::{put_u64, take_u64};
use outside::{ATOM_MAX, Memory, Octets};
use std::alloc::Global;
use std::cmp::Ordering;
use std::error::Error;
use std::fmt;

mod headers;
pub mod laws;

pub use headers::{FieldHeader, indexed_prefix, is_key, keyed_prefix};

/// What an atom is. The key of a keyed header is what follows its first byte, and so is the payload
/// of a datum.
#[derive(Clone, Copy, Debug, PartialEq, Eq)]
pub enum Kind {
    /// The empty atom: something was cut off here.
    Marker,
    /// Holds a payload.
    Datum,
    /// Opens the field with this number.
    Indexed { level: u8, number: u64 },
    /// Opens the entry with the key that follows.
    Keyed { level: u8 },
}

/// Why a byte string is no atom of any kind.
#[derive(Clone, Copy, Debug, PartialEq, Eq)]
pub enum KindFault {
    /// No kind of atom begins with this byte.
    BadPrefix,
    /// What follows the first byte of an indexed header isn't exactly one varint.
    BadIndex,
}

impl fmt::Display for KindFault {
    ghost use Rattle.std.specs.Prelude.{Some};
    ghost use Rattle.atom_kinds.specs.FaultTexts.{kind_fault_text};

    ghost output = { λ fault. Some (kind_fault_text fault) };

    fn fmt<W: fmt::Write>(&self, f: &mut fmt::Formatter<W>) -> fmt::Result {
        match self {
            KindFault::BadPrefix => write!(f, "BadPrefix"),
            KindFault::BadIndex => write!(f, "BadIndex"),
        }
    }
}

impl Error for KindFault {}

/// The least first byte of a header, which is that of level 15.
const LOWEST_HEADER: u8 = 0x80;

/// The number whose code the bytes are, from the first to the last.
fn whole_number(bytes: &[u8]) -> Option<u64>
    ensures { MatchOption result ((number : ℕ) → ¬ (IsNumberCode bytes.now number))
        (IsNumberCode bytes.now) }
{
    let (number, count) = take_u64(bytes).ok()?;
    if count == bytes.len() {
        Some(number)
    } else {
        None
    }
}

/// The level of a header with this first byte.
fn level_of(first: u8) -> u8
    ensures { result ≡ (255 - first) / 8 }
{
    (0xff - first) / 8
}

/// The level of an atom that is a header, 0 to 15.
pub fn header_level(atom: &[u8]) -> Option<usize>
    ensures { MatchOption result (is_header atom.now ≡ false) (IsHeaderOfLevel atom.now) }
{
    match atom.first() {
        Some(first) if *first >= LOWEST_HEADER => Some(usize::from(level_of(*first))),
        _ => None,
    }
}

/// What follows the first byte of an atom: the payload of a datum, the key of a keyed header, the
/// varint of an indexed one, and nothing in a marker.
pub fn rest(atom: &[u8]) -> &[u8]
    ensures { result.now ≡ drop 1 atom.now }
{
    match atom.split_first() {
        Some((_, rest)) => rest,
        None => atom,
    }
}

/// The kind of an atom. Levels are from 0 to 15.
pub fn kind_of(atom: &[u8]) -> Result<Kind, KindFault>
    ensures kind { (kind : AnyKind) → (result ≡ Ok kind) ↔ TellsKind atom.now kind }
    ensures prefix { (result ≡ Err KindFault.BadPrefix) ↔ HasBadPrefix atom.now }
    ensures index { (result ≡ Err KindFault.BadIndex) ↔ HasBadIndex atom.now }
{
    let Some((first, rest)) = atom.split_first() else {
        return Ok(Kind::Marker);
    };
    if *first == 0 {
        return Ok(Kind::Datum);
    }
    if *first < LOWEST_HEADER {
        return Err(KindFault::BadPrefix);
    }
    let level = level_of(*first);
    match *first % 8 {
        0 => match whole_number(rest) {
            Some(number) => Ok(Kind::Indexed { level, number }),
            None => Err(KindFault::BadIndex),
        },
        1 => Ok(Kind::Keyed { level }),
        _ => Err(KindFault::BadPrefix),
    }
}

/// The order of atoms: byte by byte, and an atom before each longer one that begins with it.
pub fn compare(a: &[u8], b: &[u8]) -> Ordering
    ensures { result ≡ atom_cmp a.now b.now }
{
    a.cmp(b)
}

/// The atom with this first byte, which these bytes follow.
fn atom_from(alloc: Global, first: u8, rest: &[u8]) -> Result<Octets, Memory>
    requires { length rest.now < ATOM_MAX }
    ensures atom { IfOk result (λ made. made ≡ first ∷ rest.now) }
    ensures short { IfOk result (λ made. length made ≤ ATOM_MAX) }
{
    let mut bytes = Vec::with_capacity(alloc, rest.len() + 1)?;
    bytes.push(first)?;
    bytes.extend_from_slice(rest)?;
    Ok(Octets::from_vec(bytes))
}

/// The indexed header of a level and a number.
pub fn indexed(alloc: Global, level: u8, number: u64) -> Result<Octets, Memory>
    requires { level < LEVELS_MAX }
    ensures atom { IfOk result (λ made. made ≡ atom_of (PlainIndexed level number)) }
    ensures short { IfOk result (λ made. length made ≤ ATOM_MAX) }
{
    atom_from(alloc, indexed_prefix(level), put_u64(number).as_slice())
}

/// The keyed header of a level and a key of fewer than [`ATOM_MAX`] bytes.
pub fn keyed(alloc: Global, level: u8, key: &[u8]) -> Result<Octets, Memory>
    requires level { level < LEVELS_MAX }
    requires key { length key.now < ATOM_MAX }
    ensures atom { IfOk result (λ made. made ≡ atom_of (PlainKeyed level key.now)) }
    ensures short { IfOk result (λ made. length made ≤ ATOM_MAX) }
{
    atom_from(alloc, keyed_prefix(level), key)
}

/// The datum of a payload of fewer than [`ATOM_MAX`] bytes.
pub fn datum(alloc: Global, payload: &[u8]) -> Result<Octets, Memory>
    requires { length payload.now < ATOM_MAX }
    ensures atom { IfOk result (λ made. made ≡ atom_of (PlainDatum payload.now)) }
    ensures short { IfOk result (λ made. length made ≤ ATOM_MAX) }
{
    atom_from(alloc, 0, payload)
}
