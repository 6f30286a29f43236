//! What comes before the first atom: nothing in form one, and in form two its mark and the number
//! of bytes after the head.

ghost use Rattle.std.specs.Prelude.{◌≡◌, ◌≤◌, length, drop, None, Some, IfOk, IfErr};
ghost use Rattle.context_model.specs.declared.Form.TheVariants.{Two};
ghost use Rattle.context_model.specs.Framing.{form_of, head_len};
ghost use Rattle.context_model.specs.WireFault.{head_code};
ghost use Rattle.wire_bytes.specs.Reading.{code_of};

use crate::reading::WireCode;
use context_model::{Form, HEAD_LEN};

/// What form two begins with.
pub const MARK: [u8; 4] = [0xff, 0xff, 0xff, 0x02];

/// The form that bytes are read in. It takes no memory.
pub fn form_of(bytes: &[u8]) -> Form
    ensures { result ≡ form_of bytes.now }
{
    if bytes.starts_with(&MARK) {
        Form::Two
    } else {
        Form::One
    }
}

/// What is wrong with the head of bytes that are read in this form. It takes no memory.
pub fn check_head(form: Form, bytes: &[u8]) -> Result<(), WireCode>
    ensures right { IfOk result (λ _. head_code form bytes.now ≡ None) }
    ensures long { IfOk result (λ _. head_len form ≤ length bytes.now) }
    ensures fault { IfErr result (λ code. head_code form bytes.now ≡ Some (code_of code)) }
{
    match form {
        Form::One => Ok(()),
        Form::Two => check_count(bytes),
    }
}

/// What is wrong with the head of bytes that are read in form two.
fn check_count(bytes: &[u8]) -> Result<(), WireCode>
    ensures right { IfOk result (λ _. head_code Two bytes.now ≡ None) }
    ensures long { IfOk result (λ _. HEAD_LEN ≤ length bytes.now) }
    ensures fault { IfErr result (λ code. head_code Two bytes.now ≡ Some (code_of code)) }
{
    if bytes.len() < HEAD_LEN {
        return Err(WireCode::CutLength);
    }
    let count = ((bytes.len() - HEAD_LEN) as u64).to_be_bytes();
    if bytes[MARK.len()..HEAD_LEN] == count[..] {
        Ok(())
    } else {
        Err(WireCode::BadCount)
    }
}

/// The bytes after the head. They stay where they are in form one, and move to the beginning in
/// form two; it takes no memory.
pub(crate) fn without_head(form: Form, bytes: Vec<u8>) -> Vec<u8>
    requires { head_len form ≤ length bytes.items }
    ensures { result.items ≡ drop (head_len form) bytes.items }
{
    match form {
        Form::One => bytes,
        Form::Two => moved_forward(bytes),
    }
}

/// The bytes after the head of form two.
fn moved_forward(mut bytes: Vec<u8>) -> Vec<u8>
    requires { HEAD_LEN ≤ length bytes.items }
    ensures { result.items ≡ drop HEAD_LEN bytes.items }
{
    bytes.copy_within(HEAD_LEN.., 0);
    bytes.truncate(bytes.len() - HEAD_LEN);
    bytes
}
