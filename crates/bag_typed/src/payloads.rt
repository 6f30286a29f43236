//! Data with the payloads that their fields ask for.

ghost use Rattle.std.specs.Prelude.{◌≡◌, ◌↔◌, ◌<◌, false, length, IsTrue, IfOk, IfErr};
ghost use Rattle.context_model.specs.Paths.{atom_at, path_before};
ghost use Rattle.atom_kinds.specs.Kinds.{IsHeaderOfLevel};
ghost use Rattle.bag_model.specs.Typed.{IsCount};
ghost use Rattle.bag_walks.specs.Parts.{IsBehind, IsSegment};
ghost use Rattle.bag_typed.specs.Walk.{HasNone, IsFirstOfPaths, IsWrongDatum};
ghost use Rattle.bag_typed.specs.Payloads.{IsPayload, HasRight, HasWrong};

use atom_kinds::header_level;
use atom_list::AtomList;
use bag_scan::{atom, segment_end};
use lex_varint::take_u64;
use scalar_types::{Codec, ScalarKind};

/// What the payload of a datum is to be.
#[derive(Clone, Copy)]
pub(crate) enum Payload<'a> {
    /// Nothing, as in a taint.
    Empty,
    /// A count of 64 bits.
    Count,
    /// A scalar of a kind.
    Scalar(&'a ScalarKind),
}

impl Payload<'_> {
    /// Whether an atom that is no header is a datum with such a payload, or a marker.
    fn fits_atom(&self, atom: &[u8]) -> bool
        ensures right { IsTrue result → HasRight (IsPayload self.now) atom.now }
        ensures wrong { result ≡ false → HasWrong (IsPayload self.now) atom.now }
    {
        match atom {
            [0, bytes @ ..] => self.fits(bytes),
            _ => true,
        }
    }

    /// Whether the bytes are such a payload.
    fn fits(&self, bytes: &[u8]) -> bool
        ensures { IsTrue result ↔ IsPayload self.now bytes.now }
    {
        match self {
            Payload::Empty => bytes.is_empty(),
            Payload::Count => is_count(bytes),
            Payload::Scalar(kind) => kind.spelled(bytes),
        }
    }
}

/// Whether the bytes are a count of 64 bits and nothing more.
fn is_count(bytes: &[u8]) -> bool
    ensures { IsTrue result ↔ IsCount bytes.now }
{
    match take_u64(bytes) {
        Ok((_, count)) => count == bytes.len(),
        Err(_) => false,
    }
}

/// Where all that is below headers of lesser levels than `depth` ends, from the header at a place
/// on, which has the level `own`: right there, where that is less.
fn end_from_header(list: &AtomList, depth: usize, at: usize, own: usize) -> usize
    requires within { at < length list.now }
    requires header { IsHeaderOfLevel (atom_at list.now at) own }
    ensures { IsSegment list.now depth at result }
{
    if own < depth {
        at
    } else {
        segment_end(list, depth, at)
    }
}

/// The end of what is below a header, if the data right after the header have such payloads;
/// otherwise the place of the first that hasn't.
pub(crate) fn check_data(
    payload: &Payload,
    list: &AtomList,
    level: usize,
    from: usize,
) -> Result<usize, usize>
    requires behind { IsBehind list.now (path_before list.now from) from }
    ensures end { IfOk result (IsSegment list.now level from) }
    ensures right { IfOk result (λ _. HasNone list.now
        (IsWrongDatum (IsPayload payload.now) (path_before list.now from))) }
    ensures fault { IfErr result (IsFirstOfPaths list.now
        (IsWrongDatum (IsPayload payload.now) (path_before list.now from))) }
{
    for at in from..list.len() {
        let atom = atom(list, at);
        if let Some(own) = header_level(atom) {
            return Ok(end_from_header(list, level, at, own));
        }
        if !payload.fits_atom(atom) {
            return Err(at);
        }
    }
    Ok(list.len())
}
