//! The encoding of the values of a table.

ghost use Rattle.std.specs.Prelude.{IfOk};
ghost use Rattle.bag_model.specs.Encodings.{IsEncoding, FitsAtoms};
ghost use Rattle.bag_model.specs.Shapes as shapes;
ghost use Rattle.bag_model.specs.Values.{IsOfShape};
ghost use Rattle.bag_value.specs.Vals.{plain};
ghost use Rattle.bag_encode.specs.Encoding.{bag_values};

use crate::growing_list::GrowingList;
use crate::values::put_fields;
use atom_list::Context;
use bag_value::Val;
use field_table::Table;
use outside::Memory;
use std::alloc::Global;

/// The context that has exactly the atoms of the value's layout: what is read of it is the value.
pub fn encode(alloc: Global, table: &Table, value: &Val) -> Result<Context, Memory>
    requires shape { IsOfShape (shapes.Shape.Bag table.now) (plain value.now) }
    requires fits { FitsAtoms table.now (bag_values (plain value.now)) }
    ensures { IfOk result (IsEncoding table.now (bag_values (plain value.now))) }
{
    let Val::Bag(values) = value else {
        unreachable!();
    };
    let mut list = GrowingList::new(alloc)?;
    put_fields(&mut list, 0, table.nodes(), values)?;
    Ok(Context::of(list.finish()?))
}
