//! Bytes as hexadecimal digits.

ghost use Rattle.std.specs.Prelude.{◌≡◌, ◌++◌, IfOk, IfErr, OnOk, OnErr};
ghost use Rattle.hex.specs.Hex.{encode_lower};
ghost use Rattle.text_lines.specs.HexLines as spec;

use crate::DIGITS_MAX;
use hex::FromHexError;
use outside::Memory;
use std::alloc::Global;
use std::error::Error;
use std::fmt;

/// Why a text isn't one of hexadecimal digits. The first of these counts.
#[derive(Clone, Copy, Debug, PartialEq, Eq)]
pub enum HexCode {
    /// It has more than [`DIGITS_MAX`] bytes.
    HexTooLong,
    /// It is neither a dash nor one or more pairs of digits of either case.
    BadHex,
}

impl fmt::Display for HexCode {
    ghost use Rattle.std.specs.Prelude.{Some};
    ghost use Rattle.text_lines.specs.HexLines.{hex_name};

    ghost output = { λ code. Some (hex_name code) };

    fn fmt<W: fmt::Write>(&self, f: &mut fmt::Formatter<W>) -> fmt::Result {
        match self {
            HexCode::HexTooLong => write!(f, "HexTooLong"),
            HexCode::BadHex => write!(f, "BadHex"),
        }
    }
}

impl Error for HexCode {}

/// Why a text gives no bytes.
#[derive(Clone, Copy, Debug, PartialEq, Eq)]
pub enum HexFault {
    /// The text isn't one of hexadecimal digits.
    Bad(HexCode),
    /// There is no memory for the bytes.
    Memory,
}

impl fmt::Display for HexFault {
    ghost use Rattle.std.specs.Prelude.{Some};
    ghost use Rattle.text_lines.specs.FaultTexts.{hex_fault_text};

    ghost output = { λ fault. Some (hex_fault_text fault) };

    fn fmt<W: fmt::Write>(&self, f: &mut fmt::Formatter<W>) -> fmt::Result {
        match self {
            HexFault::Bad(code) => write!(f, "{code}"),
            HexFault::Memory => write!(f, "out of memory"),
        }
    }
}

impl Error for HexFault {}

/// Appends the digits of these bytes: two a byte in lower case. Where memory runs out, the buffer
/// stays as it was.
pub fn push_digits(buffer: &mut Vec<u8>, bytes: &[u8]) -> Result<(), Memory>
    ensures ok { OnOk result (buffer.new.items ≡ buffer.old.items ++ encode_lower bytes.now) }
    ensures err { OnErr result (buffer.new.items ≡ buffer.old.items) }
{
    let start = buffer.len();
    let Some(len) = start.checked_add(bytes.len().saturating_mul(2)) else {
        return Err(Memory);
    };
    buffer.resize(len, 0)?;
    hex::encode_to_slice(bytes, &mut buffer[start..]).unwrap();
    Ok(())
}

/// Appends the digits of these bytes, or a dash for none. Where memory runs out, the buffer stays
/// as it was.
#[tactic(auto, unfolding(crate::specs::HexLines::hex_text))]
pub fn push_hex(buffer: &mut Vec<u8>, bytes: &[u8]) -> Result<(), Memory>
    ensures ok { OnOk result (buffer.new.items ≡ buffer.old.items ++ spec.hex_text bytes.now) }
    ensures err { OnErr result (buffer.new.items ≡ buffer.old.items) }
{
    if bytes.is_empty() {
        buffer.push(b'-')?;
        return Ok(());
    }
    push_digits(buffer, bytes)
}

/// The line of these bytes: their digits and a line feed.
pub fn hex_line(alloc: Global, bytes: &[u8]) -> Result<Vec<u8>, Memory>
    ensures { IfOk result (λ line. line.items ≡ spec.hex_line bytes.now) }
{
    let mut line = Vec::with_capacity(alloc, bytes.len().saturating_mul(2).saturating_add(1))?;
    push_hex(&mut line, bytes)?;
    line.push(b'\n')?;
    Ok(line)
}

/// The bytes that a text of digits says, or none for a dash.
#[tactic(auto, unfolding(crate::specs::HexLines::hex_bytes))]
pub fn hex_bytes(alloc: Global, text: &[u8]) -> Result<Vec<u8>, HexFault>
    ensures ok { IfOk result (λ bytes. spec.IsHexOf bytes.items text.now) }
    ensures err { IfErr result (λ fault. spec.IsHexRefusal text.now fault) }
{
    if DIGITS_MAX < text.len() {
        return Err(HexFault::Bad(HexCode::HexTooLong));
    }
    match text {
        [] => Err(HexFault::Bad(HexCode::BadHex)),
        [b'-'] => Ok(Vec::new(alloc)),
        _ => match hex::decode(alloc, text) {
            Ok(bytes) => Ok(bytes),
            Err(FromHexError::OutOfMemory) => Err(HexFault::Memory),
            Err(_) => Err(HexFault::Bad(HexCode::BadHex)),
        },
    }
}
