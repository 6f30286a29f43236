//! Normal form of a context.

ghost use Rattle.std.specs.Prelude.{◌↔◌, ℕ, IfOk};
ghost use Rattle.std.specs.Ordering.{nat_cmp};
ghost use Rattle.context_model.specs.Orders.{IsIn, Rises};
ghost use Rattle.bag_model.specs.NormalForm.{IsNormalOf, IsSupersededAt};
ghost use Rattle.field_table.specs.Views.{plain_view_of};

use crate::known::add_known_fields;
use atom_list::Context;
use field_table::{Table, View};
use outside::Memory;
use std::alloc::Global;

/// The normal form of a context, for a service with this view: the context without the data of the
/// slots it knows to which others of their place are preferred. The context's headers, its markers
/// and what no slot uses stay.
pub fn normal(
    alloc: Global,
    table: &Table,
    view: &View,
    mut context: Context,
) -> Result<Context, Memory>
    ensures { IfOk result (λ normal. IsNormalOf table.now (plain_view_of view.now) context normal) }
{
    if let View::Nothing = view {
        return Ok(context);
    }
    let gone = superseded(alloc, table, view, &context)?;
    context.drop_data(gone.as_slice());
    Ok(context)
}

/// The places of the data to which others of their place are preferred.
fn superseded(
    alloc: Global,
    table: &Table,
    view: &View,
    context: &Context,
) -> Result<Vec<usize>, Memory>
    ensures rises { IfOk result (λ gone. Rises nat_cmp gone.items) }
    ensures exact { IfOk result (λ gone. (place : ℕ) →
        IsIn place gone.items
        ↔ IsSupersededAt table.now (plain_view_of view.now) context.now place) }
{
    let mut gone = Vec::new(alloc);
    add_known_fields(table.nodes(), view, 0, context.list(), 0, 0, &mut gone)?;
    Ok(gone)
}
