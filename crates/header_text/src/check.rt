//! The check of bytes.

ghost use Rattle.std.specs.Prelude.{◌≡◌};
ghost use Rattle.header_text.specs.Check as spec;

/// The polynomial of Ethernet's check, its bits from the last to the first.
const POLYNOMIAL: u32 = 0xedb8_8320;

/// What a bit turns a check into.
fn after_bit(crc: u32) -> u32
    ensures { result ≡ spec.after_bit crc }
{
    if crc % 2 == 1 {
        crc / 2 ^ POLYNOMIAL
    } else {
        crc / 2
    }
}

/// What a byte turns a check into.
fn after_byte(crc: u32, byte: u8) -> u32
    ensures { result ≡ spec.after_byte crc byte }
{
    let mut after = crc ^ u32::from(byte);
    for _ in 0..8u32 {
        after = after_bit(after);
    }
    after
}

/// The CRC-32 of bytes: that of Ethernet and of zlib.
pub fn crc32(bytes: &[u8]) -> u32
    ensures { result ≡ spec.crc32 bytes.now }
{
    let mut crc = u32::MAX;
    for byte in bytes {
        crc = after_byte(crc, *byte);
    }
    crc ^ u32::MAX
}
