//! The text of a piece's bytes.

ghost use Rattle.std.specs.Prelude.{◌≡◌, ◌↔◌, ◌<◌, ◌++◌, IsTrue, codes, length, IfOk, OnOk, map};
ghost use Rattle.std.specs.Option.{option_map};
ghost use Rattle.text_carrier.specs.Views.{IsData, IsDecoded, data_bytes};

use base64::DecodeAllocError;
use base64::engine::general_purpose::STANDARD;
use outside::Memory;
use std::alloc::Global;

/// Whether a word is the text of no bytes.
fn is_dash(word: &[u8]) -> bool
    ensures { IsTrue result ↔ (word.now ≡ codes "-") }
{
    word == b"-".as_slice()
}

/// The bytes whose text a word is: those of its base64, or no bytes for a dash. `None` where it is
/// neither.
pub(crate) fn decode(alloc: Global, word: &[u8]) -> Result<Option<Vec<u8>>, Memory>
    requires { 0 < length word.now }
    ensures { IfOk result
        (λ decoded. IsDecoded word.now (option_map (λ bytes. bytes.items) decoded)) }
{
    if is_dash(word) {
        return Ok(Some(Vec::new(alloc)));
    }
    match STANDARD.decode(alloc, word) {
        Ok(bytes) => Ok(Some(bytes)),
        Err(DecodeAllocError::OutOfMemory) => Err(Memory),
        Err(DecodeAllocError::DecodeError(_)) => Ok(None),
    }
}

/// Appends the bytes whose text a word is.
pub(crate) fn append_data(word: &[u8], into: &mut Vec<u8>) -> Result<(), Memory>
    requires { IsData word.now }
    ensures { OnOk result (into.new.items ≡ into.old.items ++ data_bytes word.now) }
{
    if is_dash(word) {
        return Ok(());
    }
    match STANDARD.decode_vec(word, into) {
        Ok(()) => Ok(()),
        // The word is base64, so only memory can have run out.
        Err(_) => Err(Memory),
    }
}
