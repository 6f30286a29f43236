//! What several tests need: definitions, and contexts as digits.

use atom_list::Context;
use std::alloc::Global;
use std::test::Fail;
use text_lines::push_hex;
use wire_bytes::{Form, write};

/// A bag with a field of each type, and one without fields.
pub const DEFINITIONS: &str = "
bag Request {
  fixed32 id = 0;
  set<string> tags = 1;
  counter hops = 2;
  taint debug = 3;
  map<string, uint32> load = 4;
  greatest<uint32> top = 5;
}
bag Nothing { }
";

/// The digits of a context's bytes in form one.
pub fn digits_of(alloc: Global, context: &Context) -> Result<Vec<u8>, Fail> {
    let bytes = write(alloc, Form::One, context.list())?;
    let mut digits = Vec::new(alloc);
    push_hex(&mut digits, bytes.as_slice())?;
    Ok(digits)
}
