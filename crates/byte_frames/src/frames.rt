//! The frames of bytes, one after another.

ghost use Rattle.std.specs.Prelude.{◌≡◌, ◌+◌, ◌<◌, ◌≤◌, List, ℕ, [], ◌∷◌, length, take, MatchOption, IfOk, IfErr};
ghost use Rattle.context_model.specs.ContextFault.{IsContextOf};
ghost use Rattle.context_model.specs.Framing.{frame, length_code, most};
ghost use Rattle.context_model.specs.WireFault.{IsUnframed};
ghost use Rattle.wire_bytes.specs.Reading.{code_of};
ghost use Rattle.byte_frames.specs.Frames.{AreFramesOf};

use wire_bytes::{Form, WireCode, first_frame, form_of};

/// The length of an atom that a first byte below 128 says, if at least as many bytes follow it. So
/// are most atoms.
#[inline(always)]
fn short_len(bytes: &[u8]) -> Option<usize>
    ensures { MatchOption result (Unit {0})
        (λ len. (1 + len ≤ length bytes.now) × (len < 128) × (take 1 bytes.now ≡ len ∷ [])) }
{
    match bytes {
        [len, rest @ ..] if *len < 128 && usize::from(*len) <= rest.len() => Some(usize::from(
            *len,
        )),
        _ => None,
    }
}

/// The same as [`first_frame`], with a short way for the frames of form one whose length has one
/// byte.
#[inline(always)]
#[tactic(auto, unfolding(context_model::specs::Framing::base_128))]
pub(crate) fn front_frame(form: Form, bytes: &[u8]) -> Result<(usize, usize), WireCode>
    ensures within { IfOk result (λ found. found.0 + found.1 ≤ length bytes.now) }
    ensures short { IfOk result (λ found. found.1 ≤ most form) }
    ensures code { IfOk result (λ found. take found.0 bytes.now ≡ length_code form found.1) }
    ensures fault { IfErr result (λ code. IsUnframed form bytes.now (code_of code)) }
{
    match form {
        Form::One => match short_len(bytes) {
            Some(len) => Ok((1, len)),
            None => first_frame(form, bytes),
        },
        Form::Two => first_frame(form, bytes),
    }
}

/// An atom in its frame: `bytes` are its length and then the atom.
#[derive(Clone, Copy, Debug)]
pub struct Frame<'a> {
    pub bytes: &'a [u8],
    pub atom: &'a [u8],
}

/// The frames that are still to come: bytes that are read in this form.
#[derive(Clone, Copy, Debug)]
pub struct Frames<'a> {
    pub form: Form,
    pub rest: &'a [u8],
}

impl<'a> Frames<'a> {
    /// The frames of a context's bytes, in the form that they begin with. Of other bytes nothing is
    /// promised.
    pub fn of(context: &'a [u8]) -> Frames<'a>
        ensures { (list : List (List ℕ)) → IsContextOf list context.now → AreFramesOf result list }
    {
        let form = form_of(context);
        let rest = match context.get(form.head_len()..) {
            Some(rest) => rest,
            None => &[],
        };
        Frames { form, rest }
    }

    /// The next frame, which is then past; none at the end.
    #[inline(always)]
    pub fn next_frame(&mut self) -> Option<Frame<'a>>
        ensures form { self.new.form ≡ self.old.form }
        ensures next { (list : List (List ℕ)) → AreFramesOf self.old list → MatchOption result
            (list ≡ [])
            (λ found. (rest : List (List ℕ)) × (list ≡ found.atom.now ∷ rest)
            × (found.bytes.now ≡ frame self.old.form found.atom.now) × AreFramesOf self.new rest) }
        ensures shorter { MatchOption result (Unit {0})
            (λ _. length self.new.rest.now < length self.old.rest.now) }
    {
        let Ok((skip, len)) = front_frame(self.form, self.rest) else {
            return None;
        };
        let (bytes, rest) = self.rest.split_at(skip + len);
        self.rest = rest;
        Some(Frame {
            bytes,
            atom: &bytes[skip..],
        })
    }
}
