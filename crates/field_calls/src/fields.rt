//! Fields by their names.

ghost use Rattle.std.specs.Prelude.{◌≡◌, IfOk, IfErr};
ghost use Rattle.accessor_gen.specs.Finding.{IsAccessorOf};
ghost use Rattle.bag_model.specs.Slots.{SlotAt};
ghost use Rattle.field_calls.specs.Fields.{IsField, IsUnnamed};

use crate::refusals::FieldRefusal;
use accessor_gen::{Accessor, accessor};
use field_table::Table;
use std::alloc::Global;

/// The field with this name path.
pub(crate) fn field_named(
    alloc: Global,
    table: &Table,
    name: &[u8],
) -> Result<Accessor, FieldRefusal>
    ensures found { IfOk result (IsAccessorOf table.now) }
    ensures named { IfOk result (λ field. field.name ≡ name.now) }
    ensures refused { IfErr result (IsUnnamed table.now name.now) }
{
    // The proof learns here that the fields make a table, whose names are texts.
    let _ = table.nodes();
    let Ok(name) = str::from_utf8(name) else {
        return Err(FieldRefusal::NoField);
    };
    accessor(alloc, table, name)?.ok_or(FieldRefusal::NoField)
}

/// The number of the slot with this name path. It takes no memory.
pub(crate) fn slot_named(table: &Table, name: &[u8]) -> Result<usize, FieldRefusal>
    ensures found { IfOk result (λ slot. (at : SlotAt) × IsField table.now name.now slot at) }
    ensures refused { IfErr result (IsUnnamed table.now name.now) }
{
    // The proof learns here that the fields make a table, whose names are texts.
    let _ = table.nodes();
    let Ok(path) = str::from_utf8(name) else {
        return Err(FieldRefusal::NoField);
    };
    table.find(path).ok_or(FieldRefusal::NoField)
}
