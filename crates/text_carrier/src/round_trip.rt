//! Bytes carried and collected again.

ghost use Rattle.std.specs.Prelude.{◌≡◌, ◌≤◌, length, IfOk, IfErr};
ghost use Rattle.text_carrier.specs.declared.faults.CarryFault.TheVariants as faults;

use crate::carrying::carry;
use crate::collecting::collect;
use crate::faults::CarryFault;
use crate::laws::{carried_lines_come_back, lines_collect_one_way};
use crate::{CARRIED_MAX, WIDTH_MAX, WIDTH_MIN};
use std::alloc::Global;

/// What is collected of the lines of some bytes: the same bytes, unless memory runs out.
pub fn carry_and_collect(alloc: Global, bytes: &[u8], width: usize) -> Result<Vec<u8>, CarryFault>
    requires least { WIDTH_MIN ≤ width }
    requires most { width ≤ WIDTH_MAX }
    requires few { length bytes.now ≤ CARRIED_MAX }
    ensures ok { IfOk result (λ back. back.items ≡ bytes.now) }
    ensures err { IfErr result (λ fault. fault ≡ faults.Memory) }
{
    // They say that all lines of the bytes collect to the bytes, and to no other answer.
    carried_lines_come_back();
    lines_collect_one_way();
    let text = carry(alloc, bytes, width)?;
    collect(alloc, text.as_slice())
}
