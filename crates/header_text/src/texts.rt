//! The text of a context's bytes.

ghost use Rattle.std.specs.Prelude.{◌≡◌, ◌^◌, ◌<◌, length};
ghost use Rattle.header_text.specs.Texts as spec;

use crate::check::crc32;
use base64::engine::general_purpose::URL_SAFE_NO_PAD;

/// How many letters a check has.
pub(crate) const CHECK_LEN: usize = 6;

/// The letters of the check of bytes.
pub(crate) fn check_letters(bytes: &[u8]) -> [u8; CHECK_LEN]
    ensures { result ≡ spec.check_letters bytes.now }
{
    let mut letters = [0; CHECK_LEN];
    let check = crc32(bytes).to_be_bytes();
    let _size = URL_SAFE_NO_PAD.encode_slice(&check, &mut letters).unwrap();
    letters
}

/// How many letters the text of so many bytes has.
pub fn text_len(bytes: usize) -> usize
    requires { bytes < 2 ^ 63 }
    ensures { result ≡ spec.text_len bytes }
{
    bytes / 3 * 4 + (bytes % 3 * 4 + 2) / 3 + 1 + CHECK_LEN
}

/// Writes the text of bytes: `DATA.CHECK`. Both are base64 of the alphabet for URLs without
/// padding, DATA that of the bytes and CHECK that of their CRC-32, most significant byte first. The
/// buffer has as many bytes as [`text_len`] says.
pub fn write_text(bytes: &[u8], room: &mut [u8])
    requires { length room.old ≡ spec.text_len (length bytes.now) }
    ensures { room.new ≡ spec.header_text bytes.now }
{
    let size = URL_SAFE_NO_PAD.encode_slice(bytes, room).unwrap();
    room[size] = b'.';
    room[size + 1..].copy_from_slice(&check_letters(bytes));
}
