//! What a part of a header's value carries.

ghost use Rattle.std.specs.Prelude.{◌≡◌, ◌↔◌, ◌++◌, ◌∷◌, IfOk, IsTrue, length, MatchOption, List, ℕ};
ghost use Rattle.std.specs.Option.{option_map};
ghost use Rattle.header_text.specs.Reading.{AreLettersOf, IsCarriedBy, IsCutAtCheck, IsReadFrom, lost_list};
ghost use Rattle.header_text.specs.Texts.{check_letters};

use crate::texts::{CHECK_LEN, check_letters};
use atom_list::Context;
use base64::DecodeAllocError;
use base64::engine::general_purpose::URL_SAFE_NO_PAD;
use outside::Memory;
use std::alloc::Global;
use wire_bytes::{ContextFault, read_context, read_context_owned};

/// The letters before the dot and the check after it; none where there is no dot before as many
/// letters as a check has.
fn cut_check(part: &[u8]) -> Option<(&[u8], &[u8])>
    ensures { IsCutAtCheck part.now (option_map (λ cut. (cut.0.now, cut.1.now)) result) }
{
    let at = part.len().checked_sub(CHECK_LEN)?;
    let (front, check) = part.split_at(at);
    match front {
        [data @ .., b'.'] => Some((data, check)),
        _ => None,
    }
}

/// Whether these letters are the check of bytes.
fn is_check_of(check: &[u8], bytes: &[u8]) -> bool
    ensures { IsTrue result ↔ (check.now ≡ check_letters bytes.now) }
{
    check == check_letters(bytes).as_slice()
}

/// The bytes of letters; none where they are the letters of no bytes.
#[tactic(auto, unfolding(crate::specs::Texts::letters))]
fn decoded(alloc: Global, text: &[u8]) -> Result<Option<Vec<u8>>, Memory>
    ensures { IfOk result (λ found. AreLettersOf text.now (option_map (λ bytes. bytes.items) found)) }
{
    match URL_SAFE_NO_PAD.decode(alloc, text) {
        Ok(bytes) => Ok(Some(bytes)),
        Err(DecodeAllocError::OutOfMemory) => Err(Memory),
        Err(DecodeAllocError::DecodeError(_)) => Ok(None),
    }
}

/// The bytes whose text the part is; none where it is the text of no bytes.
fn carried_bytes(alloc: Global, part: &[u8]) -> Result<Option<Vec<u8>>, Memory>
    ensures { IfOk result (λ found. IsCarriedBy part.now (option_map (λ bytes. bytes.items) found)) }
{
    let Some((data, check)) = cut_check(part) else {
        return Ok(None);
    };
    let Some(bytes) = decoded(alloc, data)? else {
        return Ok(None);
    };
    if is_check_of(check, &bytes) {
        Ok(Some(bytes))
    } else {
        Ok(None)
    }
}

/// The context that a part of a header's value carries: that whose bytes' text the part is, in
/// either form. None where it carries none: then the part is lost.
pub fn read_part(alloc: Global, part: &[u8]) -> Result<Option<Context>, Memory>
    ensures { IfOk result (λ reading. IsReadFrom part.now reading) }
{
    let Some(bytes) = carried_bytes(alloc, part)? else {
        return Ok(None);
    };
    match read_context_owned(alloc, bytes) {
        Ok(context) => Ok(Some(context)),
        Err(ContextFault::At { .. }) => Ok(None),
        Err(ContextFault::Memory) => Err(Memory),
    }
}

/// The context that stands for what is lost: that of one marker.
pub fn lost_context(alloc: Global) -> Result<Context, Memory>
    ensures { IfOk result (λ context. context ≡ lost_list) }
{
    match read_context(alloc, &[0]) {
        Ok(context) => Ok(context),
        // The bytes are those of a context, so only memory can have run out.
        Err(_) => Err(Memory),
    }
}
