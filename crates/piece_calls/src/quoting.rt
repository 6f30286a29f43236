//! Bytes as the literals of writes.

ghost use Rattle.std.specs.Prelude.{◌≡◌, ◌*◌, ◌≤◌, [], ◌∷◌, ◌++◌, codes, length};
ghost use Rattle.hex.specs.Hex.{encode_lower};
ghost use Rattle.text_model.specs.ScalarTexts.{bytes_text, escaped, quoted};
ghost use Rattle.byte_forward.specs.Room.{HoldsBytes};
ghost use Rattle.piece_calls.specs.Quoting as spec;
ghost use Rattle.piece_calls.specs.Quoting.{QuotesInto};

use byte_calls::TooShort;

/// What bytes are written as.
#[derive(Clone, Copy, Debug, PartialEq, Eq)]
pub enum Literal {
    /// A string between quotation marks: `"a\x0a"`.
    String,
    /// Hexadecimal digits: `0x610a`.
    Bytes,
}

/// How many bytes a byte of a string is written as.
#[tactic(auto, unfolding(hex::specs::Hex::encode_with))]
fn escaped_len(byte: u8) -> u128
    ensures len { result ≡ length (escaped byte) }
    ensures few { result ≤ 4 }
{
    match byte {
        b'"' | b'\\' => 2,
        0..=0x1f | 0x7f => 4,
        _ => 1,
    }
}

/// How many bytes a string has between its quotation marks, and these.
fn quoted_len(bytes: &[u8]) -> u128
    ensures { result ≡ length (quoted bytes.now) }
{
    let mut len = 2;
    for byte in bytes {
        len += escaped_len(*byte);
    }
    len
}

/// How many bytes the literal has.
fn literal_len(literal: Literal, bytes: &[u8]) -> u128
    ensures { result ≡ length (spec.literal_text literal bytes.now) }
{
    match literal {
        Literal::String => quoted_len(bytes),
        Literal::Bytes => 2 + 2 * bytes.len() as u128,
    }
}

/// Writes bytes at the beginning of the buffer, and answers how many they are. The rest of the
/// buffer stays.
fn put(bytes: &[u8], room: &mut [u8]) -> usize
    requires { length bytes.now ≤ length room.old }
    ensures { HoldsBytes bytes.now result room.old room.new }
{
    room[..bytes.len()].copy_from_slice(bytes);
    bytes.len()
}

/// The same for the digits of bytes.
fn put_digits(bytes: &[u8], room: &mut [u8]) -> usize
    requires { 2 * length bytes.now ≤ length room.old }
    ensures { HoldsBytes (encode_lower bytes.now) result room.old room.new }
{
    let len = 2 * bytes.len();
    hex::encode_to_slice(bytes, &mut room[..len]).unwrap();
    len
}

/// The same for a control character in a string.
fn put_control(byte: u8, room: &mut [u8]) -> usize
    requires { 4 ≤ length room.old }
    ensures { HoldsBytes (codes "\\x" ++ encode_lower (byte ∷ [])) result room.old room.new }
{
    let at = put(b"\\x", room);
    at + put_digits(&[byte], &mut room[at..])
}

/// The same for a byte of a string.
#[tactic(auto, unfolding(hex::specs::Hex::encode_with))]
fn put_escaped(byte: u8, room: &mut [u8]) -> usize
    requires { length (escaped byte) ≤ length room.old }
    ensures { HoldsBytes (escaped byte) result room.old room.new }
{
    match byte {
        b'"' | b'\\' => put(&[b'\\', byte], room),
        0..=0x1f | 0x7f => put_control(byte, room),
        _ => put(&[byte], room),
    }
}

/// The same for a string between quotation marks.
fn put_quoted(bytes: &[u8], room: &mut [u8]) -> usize
    requires { length (quoted bytes.now) ≤ length room.old }
    ensures { HoldsBytes (quoted bytes.now) result room.old room.new }
{
    let mut at = put(b"\"", room);
    for byte in bytes {
        at += put_escaped(*byte, &mut room[at..]);
    }
    at + put(b"\"", &mut room[at..])
}

/// The same for hexadecimal digits after `0x`.
fn put_bytes(bytes: &[u8], room: &mut [u8]) -> usize
    requires { length (bytes_text bytes.now) ≤ length room.old }
    ensures { HoldsBytes (bytes_text bytes.now) result room.old room.new }
{
    let at = put(b"0x", room);
    at + put_digits(bytes, &mut room[at..])
}

/// Writes the literal of any bytes at the beginning of `room`, and answers how many bytes it has.
/// It takes no memory.
///
/// A string is written between quotation marks: a quotation mark or a backslash follows a
/// backslash, and a control character is its two digits after `\x`. Of bytes that are no text a
/// string is written just so, and no write reads it. Where `room` is too short it stays, and the
/// refusal says how many bytes are needed, where they are fewer than 2 ^ 64.
pub fn quote_into(literal: Literal, bytes: &[u8], room: &mut [u8]) -> Result<usize, TooShort>
    ensures { QuotesInto literal bytes.now room.old room.new result }
{
    let len = literal_len(literal, bytes);
    if (room.len() as u128) < len {
        let size = len.min(usize::MAX as u128) as usize;
        return Err(TooShort { size });
    }
    Ok(match literal {
        Literal::String => put_quoted(bytes, room),
        Literal::Bytes => put_bytes(bytes, room),
    })
}
