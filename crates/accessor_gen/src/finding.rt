//! The accessors of a table, all of them or one by its name.

ghost use Rattle.std.specs.Prelude.{◌≡◌, ◌<◌, length, IfOk};
ghost use Rattle.bag_model.specs.Slots.{slots_of};
ghost use Rattle.accessor_gen.specs.Finding.{IsAccessorOf, AreAccessors, FindsAccessor};

use crate::access::Accessor;
use field_table::Table;
use outside::{Memory, Text};
use std::alloc::Global;

/// The accessor of a slot.
fn accessor_of(alloc: Global, table: &Table, slot: usize) -> Result<Accessor, Memory>
    requires { slot < length (slots_of table.now) }
    ensures slot { IfOk result (λ made. made.slot ≡ slot) }
    ensures named { IfOk result (IsAccessorOf table.now) }
{
    let name = table.name(alloc, slot)?;
    Ok(Accessor { name, slot })
}

/// One accessor for each slot of a table, in its order: that of slot 0 is the first.
pub fn accessors(alloc: Global, table: &Table) -> Result<Vec<Accessor>, Memory>
    ensures { IfOk result (λ made. AreAccessors table.now made.items) }
{
    let mut made = Vec::with_capacity(alloc, table.slots())?;
    for slot in 0..table.slots() {
        let next = accessor_of(alloc, table, slot)?;
        made.push(next)?;
    }
    Ok(made)
}

/// The accessor of the slot with this name path, its names joined by dots. There is none for the
/// path of a bag.
pub fn accessor(alloc: Global, table: &Table, name: &str) -> Result<Option<Accessor>, Memory>
    ensures { IfOk result (FindsAccessor table.now name.now) }
{
    // The proof learns here that the fields make a table.
    let _ = table.nodes();
    let Some(slot) = table.find(name) else {
        return Ok(None);
    };
    let name = Text::of(alloc, name)?;
    Ok(Some(Accessor { name, slot }))
}
