//! Whether bytes are those of a context.

ghost use Rattle.std.specs.Prelude.{◌≡◌, List, ℕ, length, IfOk, IfErr};
ghost use Rattle.context_model.specs.ContextFault.{IsContextOf, IsFirstContextFault};
ghost use Rattle.context_model.specs.Framing.{has_long};
ghost use Rattle.wire_bytes.specs.Reading.{byte_code_of};
ghost use Rattle.byte_frames.specs.OpenAtoms.{opened_by};
ghost use Rattle.byte_frames.specs.Reading.{IsReadTo, TakesAtom};

use crate::frames::front_frame;
use crate::open_atoms::OpenHeaders;
use crate::surveys::Survey;
use context_model::LENGTH_MAX;
use std::error::Error;
use std::fmt;
use wire_bytes::{ByteCode, Form, check_head, form_of};

/// The first fault of bytes that aren't those of a context: the head is wrong at `offset`, or the
/// bytes from there on begin with no atom that is allowed there, and those between the head and
/// there are the frames of a context.
#[derive(Clone, Copy, Debug, PartialEq, Eq)]
pub struct ByteFault {
    pub offset: usize,
    pub code: ByteCode,
}

impl fmt::Display for ByteFault {
    ghost use Rattle.std.specs.Prelude.{Some};
    ghost use Rattle.byte_frames.specs.FaultTexts.{byte_fault_text};

    ghost output = { λ fault. Some (byte_fault_text fault) };

    fn fmt<W: fmt::Write>(&self, f: &mut fmt::Formatter<W>) -> fmt::Result {
        write!(f, "offset {} {}", self.offset, self.code)
    }
}

impl Error for ByteFault {}

/// Takes the first frame and admits its atom: how long the atom is, and the bytes after it. Or what
/// is wrong there: a fault of the frame comes before one of the atom.
#[inline(always)]
fn take_atom<'a>(
    form: Form,
    rest: &'a [u8],
    open: &mut OpenHeaders<'a>,
    datum: &mut Option<&'a [u8]>,
) -> Result<(usize, &'a [u8]), ByteCode>
    ensures { (list : List (List ℕ)) → IsReadTo form list (opened_by open.old datum.old)
        → TakesAtom form list rest.now (opened_by open.new datum.new) result }
{
    let (skip, len) = front_frame(form, rest)?;
    let (frame, behind) = rest.split_at(skip + len);
    open.admit(datum, &frame[skip..])?;
    Ok((len, behind))
}

/// Looks through bytes once: what they tell of the context whose bytes they are, in either form, or
/// their first fault.
// Inlined, so that a check has no code for what it doesn't answer.
#[inline(always)]
pub fn survey(bytes: &[u8]) -> Result<Survey, ByteFault>
    ensures found { IfOk result (λ found. (list : List (List ℕ)) × IsContextOf list bytes.now
        × (found.atoms ≡ length list) × (found.has_long ≡ has_long list)) }
    ensures fault { IfErr result
        (λ fault. IsFirstContextFault bytes.now fault.offset (byte_code_of fault.code)) }
{
    let form = form_of(bytes);
    if let Err(code) = check_head(form, bytes) {
        return Err(ByteFault {
            offset: 4,
            code: ByteCode::from(code),
        });
    }
    let mut rest = &bytes[form.head_len()..];
    let mut open = OpenHeaders::new();
    let mut datum = None;
    let mut survey = Survey {
        atoms: 0,
        has_long: false,
    };
    while !rest.is_empty() {
        match take_atom(form, rest, &mut open, &mut datum) {
            Ok((len, behind)) => {
                survey.atoms += 1;
                survey.has_long |= LENGTH_MAX < len;
                rest = behind;
            }
            Err(code) => {
                return Err(ByteFault {
                    offset: bytes.len() - rest.len(),
                    code,
                });
            }
        }
    }
    Ok(survey)
}

/// How many atoms the context has whose bytes these are, in either form, or their first fault.
pub fn check_bytes(bytes: &[u8]) -> Result<usize, ByteFault>
    ensures found { IfOk result
        (λ count. (list : List (List ℕ)) × IsContextOf list bytes.now × (count ≡ length list)) }
    ensures fault { IfErr result
        (λ fault. IsFirstContextFault bytes.now fault.offset (byte_code_of fault.code)) }
{
    Ok(survey(bytes)?.atoms)
}
