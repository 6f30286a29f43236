//! Texts and byte strings as fields of a struct: each zero byte is followed by 255, and 0 and 1 are
//! at the end, so that a field tells where it ends and the order of the fields is that of their
//! bytes.

ghost use Rattle.std.specs.Prelude.{◌≡◌, ℕ, List, ◌++◌, IfOk, OnOk, IfSome, IsNone, IsTrue, ◌↔◌, ◌∷◌, All};
ghost use Rattle.bag_model.specs.Scalars.{terminated};
ghost use Rattle.scalar_types.specs.Codec.{AlwaysFits};
ghost use Rattle.scalar_types.specs.Fronts.{Begins, BeginsWithSome};
ghost use Rattle.scalar_types.specs.Escapes.{IsNonzero, IsEscapedRun, FitsOpen};

use crate::codec::TakeFault;
use memchr::memchr;
use outside::Memory;
use std::alloc::Global;

/// The byte after a zero byte that belongs to the field.
const ESCAPED: u8 = 0xff;

/// The byte after the zero byte that ends the field.
const END: u8 = 1;

/// A part of a field: the bytes up to a zero byte, and what follows the byte after that.
#[derive(Clone, Copy)]
struct Piece<'a> {
    run: &'a [u8],
    last: bool,
    rest: &'a [u8],
}

/// The bytes before the first zero byte, and those after it.
fn split_at_zero<'a>(bytes: &'a [u8]) -> Option<(&'a [u8], &'a [u8])>
    ensures found { IfSome result
        (λ parts. All IsNonzero parts.0.now × (bytes.now ≡ parts.0.now ++ 0 ∷ parts.1.now)) }
    ensures none { IsNone result → All IsNonzero bytes.now }
{
    let at = memchr(0, bytes)?;
    Some((&bytes[..at], &bytes[at + 1..]))
}

/// The first part of the field that begins these bytes.
fn first_piece<'a>(bytes: &'a [u8]) -> Option<Piece<'a>>
    ensures found { IfSome result
        (λ piece. IsEscapedRun bytes.now piece.run.now piece.last piece.rest.now) }
    ensures none { IsNone result → ¬ BeginsWithSome AlwaysFits terminated bytes.now }
{
    let (run, tail) = split_at_zero(bytes)?;
    let (second, rest) = tail.split_first()?;
    match *second {
        END => Some(Piece {
            run,
            last: true,
            rest,
        }),
        ESCAPED => Some(Piece {
            run,
            last: false,
            rest,
        }),
        _ => None,
    }
}

/// Appends the bytes as a field.
pub fn put_ended(bytes: &[u8], into: &mut Vec<u8>) -> Result<(), Memory>
    ensures { OnOk result (into.new.items ≡ into.old.items ++ terminated bytes.now) }
{
    for byte in bytes {
        into.push(*byte)?;
        if *byte == 0 {
            into.push(ESCAPED)?;
        }
    }
    into.extend_from_slice(&[0, END])?;
    Ok(())
}

/// The bytes whose field begins these, and what follows it.
pub fn take_ended<'a>(alloc: Global, bytes: &'a [u8]) -> Result<(Vec<u8>, &'a [u8]), TakeFault>
    ensures taken { IfOk result
        (λ read. Begins AlwaysFits terminated bytes.now read.0.items read.1.now) }
    ensures refused { result ≡ Err TakeFault.NotSpelled
        → ¬ BeginsWithSome AlwaysFits terminated bytes.now }
{
    let mut field = Vec::new(alloc);
    let mut rest = bytes;
    while let Some(piece) = first_piece(rest) {
        field.extend_from_slice(piece.run)?;
        if piece.last {
            return Ok((field, piece.rest));
        }
        field.push(0)?;
        rest = piece.rest;
    }
    Err(TakeFault::NotSpelled)
}

/// Whether the bytes are valid UTF-8, which a text has to be.
fn fits_open(is_text: bool, bytes: &[u8]) -> bool
    ensures { IsTrue result ↔ FitsOpen is_text bytes.now }
{
    !is_text || std::str::from_utf8(bytes).is_ok()
}

/// What follows the field that begins these bytes, where it is one of a text, or of any bytes.
pub fn skip_ended<'a>(is_text: bool, bytes: &'a [u8]) -> Option<&'a [u8]>
    ensures found { IfSome result
        (λ rest. (value : List ℕ) × Begins (FitsOpen is_text) terminated bytes.now value rest.now) }
    ensures none { IsNone result → ¬ BeginsWithSome (FitsOpen is_text) terminated bytes.now }
{
    let mut rest = bytes;
    while let Some(piece) = first_piece(rest) {
        if !fits_open(is_text, piece.run) {
            return None;
        }
        if piece.last {
            return Some(piece.rest);
        }
        rest = piece.rest;
    }
    None
}
