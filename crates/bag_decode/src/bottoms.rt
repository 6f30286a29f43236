//! Values of fields of which nothing is said.

ghost use Rattle.std.specs.Prelude.{◌≡◌, IfOk};
ghost use Rattle.bag_model.specs.Shapes as shapes;
ghost use Rattle.bag_model.specs.Values as values;
ghost use Rattle.bag_model.specs.Values.{bottoms};
ghost use Rattle.bag_value.specs.Vals.{plain};
ghost use Rattle.field_table.specs.Plain.{shape_of, nodes_of};

use bag_value::{Entries, Val, Vals};
use counter_type::Counts;
use field_table::{Shape, Slots, Table};
use outside::Memory;
use set_map_types::SetOf;
use std::alloc::Global;

/// The bag of a table of which nothing is said: bottom in each field.
pub fn bottom(alloc: Global, table: &Table) -> Result<Val, Memory>
    ensures { IfOk result (λ value. plain value ≡ values.bottom (shapes.Shape.Bag table.now)) }
{
    Ok(Val::Bag(bottoms_of(alloc, table.nodes())?))
}

/// The value of a field that the context says nothing of.
#[cycle(bottom)]
pub fn bottom_of(alloc: Global, shape: &Shape) -> Result<Val, Memory>
    ensures { IfOk result (λ value. plain value ≡ values.bottom (shape_of shape.now)) }
{
    match shape {
        Shape::Taint => Ok(Val::Taint(false)),
        Shape::Scalar(_) => Ok(Val::Scalar(None)),
        Shape::Greatest(_) => Ok(Val::Greatest(None)),
        Shape::Set(kind) => Ok(Val::Set(SetOf::new(alloc, kind.copy()?)?)),
        Shape::Counter => Ok(Val::Counter(Counts::new(alloc))),
        Shape::Map(_, _) => Ok(Val::Map(Entries::new(alloc))),
        Shape::Bag(fields) => Ok(Val::Bag(bottoms_of(alloc, fields)?)),
    }
}

/// The values of a bag's fields that the context says nothing of.
#[cycle(bottom)]
fn bottoms_of(alloc: Global, fields: &Slots) -> Result<Vals, Memory>
    ensures { IfOk result (λ values. values ≡ bottoms (nodes_of fields.now)) }
{
    let mut values = Vals::new(alloc);
    for at in 0..fields.len() {
        let field = fields.get(at).unwrap();
        values.push(bottom_of(alloc, &field.shape)?)?;
    }
    Ok(values)
}
