//! Contexts that are received.

ghost use Rattle.std.specs.Prelude.{IfOk, IfErr};
ghost use Rattle.text_lines.specs.HexLines.{hex_codes, BreaksHex};
ghost use Rattle.text_lines.specs.Readings.{NoneOf};
ghost use Rattle.graph_text.specs.Additions.{SaysTypedContext, IsRefusedHex};

use crate::faults::{GraphCode, LineFault};
use atom_list::Context;
use bag_typed::check_typed;
use field_table::Table;
use outside::OrMemory;
use std::alloc::Global;
use text_lines::{HexCode, HexFault, hex_bytes};
use wire_bytes::{ContextFault, form_of, offset, read_context_owned};

/// The context that digits say, which is typed under the table.
pub(crate) fn read_received(
    alloc: Global,
    table: &Table,
    hex: &[u8],
) -> Result<Context, OrMemory<LineFault>>
    ensures hex { IfOk result (λ _. NoneOf (BreaksHex hex.now) hex_codes) }
    ensures ok { IfOk result (λ context. SaysTypedContext table.now hex.now context) }
    ensures err { IfErr result (IsRefusedHex table.now hex.now) }
{
    let bytes = match hex_bytes(alloc, hex) {
        Ok(bytes) => bytes,
        Err(HexFault::Bad(HexCode::HexTooLong)) => return Err(GraphCode::HexTooLong.into()),
        Err(HexFault::Bad(HexCode::BadHex)) => return Err(GraphCode::BadHex.into()),
        Err(HexFault::Memory) => return Err(OrMemory::Memory),
    };
    let form = form_of(bytes.as_slice());
    let context = match read_context_owned(alloc, bytes) {
        Ok(context) => context,
        Err(ContextFault::At { offset, code }) => {
            return Err(OrMemory::Fault(LineFault::Bytes { offset, code }));
        }
        Err(ContextFault::Memory) => return Err(OrMemory::Memory),
    };
    match check_typed(table, &context) {
        Ok(()) => Ok(context),
        Err(place) => Err(OrMemory::Fault(LineFault::IllTyped {
            offset: offset(form, context.list(), place),
        })),
    }
}
