//! How many slots two tables have in common. Nothing here takes memory.

ghost use Rattle.std.specs.Prelude.{◌≤◌};
ghost use Rattle.bag_model.specs.declared.TheConstants.{FIELDS_MAX};
ghost use Rattle.bag_model.specs.Shapes.{Bag};
ghost use Rattle.bag_model.specs.Tables.{IsShape, AreFields, nodes_under, node_count};
ghost use Rattle.field_table.specs.Plain.{nodes_of, shape_of};
ghost use Rattle.def_evolve.specs.Common.{IsCommonCount};

use field_table::{Shape, Slots};

/// How many slots two fields have in common.
#[cycle(common)]
fn common_slots(old: &Shape, new: &Shape) -> u64
    requires old { IsShape (shape_of old.now) }
    requires new { IsShape (shape_of new.now) }
    requires small { nodes_under (shape_of old.now) ≤ FIELDS_MAX }
    ensures { IsCommonCount (shape_of old.now) (shape_of new.now) result }
{
    match old {
        Shape::Bag(fields) => match new {
            Shape::Bag(others) => common_fields(fields, others),
            _ => 0,
        },
        _ => match new {
            Shape::Bag(_) => 0,
            _ => 1,
        },
    }
}

/// How many slots two bags have in common: those of the fields with one number.
#[cycle(common)]
pub(crate) fn common_fields(fields: &Slots, others: &Slots) -> u64
    requires old { AreFields (nodes_of fields.now) }
    requires new { AreFields (nodes_of others.now) }
    requires small { node_count (nodes_of fields.now) ≤ FIELDS_MAX }
    ensures { IsCommonCount (Bag (nodes_of fields.now)) (Bag (nodes_of others.now)) result }
{
    let mut common = 0;
    for at in 0..fields.len() {
        let field = fields.get(at).unwrap();
        if let Some((_, other)) = others.find_number(u64::from(field.number)) {
            common += common_slots(&field.shape, &other.shape);
        }
    }
    common
}
