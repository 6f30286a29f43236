//! Texts of scalars.

ghost use Rattle.std.specs.Prelude.{map};
ghost use Rattle.scalar_types.specs.Scalars.{IsPlain, plain_of, value_of};
ghost use Rattle.text_model.specs.Commas.{in_parentheses};
ghost use Rattle.text_model.specs.ScalarTexts.{bytes_text, escaped, plain_text, quoted, scalar_text, truth_text};
ghost use Rattle.report_text.specs.Extension.{Appends};

use crate::commas::put_comma;
use itoa::{Buffer, Integer};
use outside::Memory;
use scalar_types::{Scalar, ScalarList};
use text_lines::push_digits;

/// Appends a number in decimal.
pub(crate) fn put_number<N: Integer>(number: N, into: &mut Vec<u8>) -> Result<(), Memory>
    ensures { Appends result (N.text number) into.old into.new }
{
    let mut digits = Buffer::new();
    into.extend_from_slice(digits.format(number).as_bytes())?;
    Ok(())
}

/// Appends bytes as digits.
pub(crate) fn put_bytes(bytes: &[u8], into: &mut Vec<u8>) -> Result<(), Memory>
    ensures { Appends result (bytes_text bytes.now) into.old into.new }
{
    into.extend_from_slice(b"0x")?;
    push_digits(into, bytes)
}

/// Appends a scalar.
pub(crate) fn put_scalar(scalar: &Scalar, into: &mut Vec<u8>) -> Result<(), Memory>
    ensures { Appends result (scalar_text (value_of scalar.now)) into.old into.new }
{
    match scalar {
        Scalar::Packed(fields) => put_struct(fields, into),
        plain => put_plain(plain, into),
    }
}

/// Appends a struct.
fn put_struct(fields: &ScalarList, into: &mut Vec<u8>) -> Result<(), Memory>
    ensures { Appends result (in_parentheses (map plain_text fields.now)) into.old into.new }
{
    into.push(b'(')?;
    for (at, field) in fields.as_slice().iter().enumerate() {
        put_comma(at, into)?;
        put_plain(field, into)?;
    }
    into.push(b')')?;
    Ok(())
}

/// Appends a scalar that is no struct.
fn put_plain(scalar: &Scalar, into: &mut Vec<u8>) -> Result<(), Memory>
    requires { IsPlain scalar.now }
    ensures { Appends result (plain_text (plain_of scalar.now)) into.old into.new }
{
    match scalar {
        Scalar::Bool(truth) => put_truth(*truth, into),
        Scalar::Signed(number) => put_number(*number, into),
        Scalar::Unsigned(number) => put_number(*number, into),
        Scalar::Str(text) => put_quoted(text.as_str().as_bytes(), into),
        Scalar::Bytes(bytes) => put_bytes(bytes.as_slice(), into),
        Scalar::Packed(_) => unreachable!(),
    }
}

/// Appends a truth value.
fn put_truth(truth: bool, into: &mut Vec<u8>) -> Result<(), Memory>
    ensures { Appends result (truth_text truth) into.old into.new }
{
    let word = if truth { "true" } else { "false" };
    into.extend_from_slice(word.as_bytes())?;
    Ok(())
}

/// Appends a string between quotation marks.
fn put_quoted(bytes: &[u8], into: &mut Vec<u8>) -> Result<(), Memory>
    ensures { Appends result (quoted bytes.now) into.old into.new }
{
    into.push(b'"')?;
    for byte in bytes {
        put_escaped(*byte, into)?;
    }
    into.push(b'"')?;
    Ok(())
}

/// Appends a byte of a string.
fn put_escaped(byte: u8, into: &mut Vec<u8>) -> Result<(), Memory>
    ensures { Appends result (escaped byte) into.old into.new }
{
    match byte {
        b'"' | b'\\' => into.extend_from_slice(&[b'\\', byte])?,
        0..=0x1f | 0x7f => {
            into.extend_from_slice(b"\\x")?;
            push_digits(into, &[byte])?;
        }
        _ => into.push(byte)?,
    }
    Ok(())
}
