//! Calls that tie normal forms to what is read of them.

ghost use Rattle.std.specs.Prelude.{◌≡◌, ◌↔◌, ◌<◌, List, [], length, IfOk};
ghost use Rattle.context_model.specs.Atoms.{Atom};
ghost use Rattle.context_model.specs.Ended.{IsEnded, field_path};
ghost use Rattle.bag_model.specs.NormalForm.{IsNormalOf};
ghost use Rattle.bag_model.specs.Readings.{PathsOf, Reads};
ghost use Rattle.bag_model.specs.Shapes as shapes;
ghost use Rattle.bag_model.specs.Slots.{SlotAt, slots_of};
ghost use Rattle.bag_model.specs.SlotValues.{HasSlot};
ghost use Rattle.bag_model.specs.Typed.{AreTyped};
ghost use Rattle.bag_value.specs.Vals.{plain};
ghost use Rattle.field_table.specs.Views.{plain_view_of};

use atom_list::Context;
use bag_decode::decode;
use bag_normal::normal;
use bag_scan::{State, state_of};
use bag_value::Val;
use bag_value::laws::{merges_read_as_joins, normal_form_keeps};
use field_table::{Table, View};
use outside::Memory;
use std::alloc::Global;

/// What is read of the normal form of a typed context, for a service with this view, and what is
/// read of the context. They are one value.
pub fn normal_and_read(
    alloc: Global,
    table: &Table,
    view: &View,
    context: &Context,
) -> Result<(Val, Val), Memory>
    requires { AreTyped table.now (PathsOf context.now) [] }
    ensures one { IfOk result (λ two. two.0 ≡ two.1) }
    ensures kept { IfOk result
        (λ two. (normal : List Atom)
        → IsNormalOf table.now (plain_view_of view.now) context.now normal
        → Reads (shapes.Shape.Bag table.now) (PathsOf normal) [] (plain two.0)) }
    ensures read { IfOk result
        (λ two. Reads (shapes.Shape.Bag table.now) (PathsOf context.now) [] (plain two.1)) }
{
    // The proof rests on these laws, and learns that the fields make a table and that the list is
    // well formed.
    normal_form_keeps();
    merges_read_as_joins();
    let _ = table.nodes();
    let _ = context.list();
    let fewer = normal(alloc, table, view, context.copy()?)?;
    let kept = decode(alloc, table, &fewer)?;
    let read = decode(alloc, table, context)?;
    Ok((kept, read))
}

/// The state of a slot in the normal form of a context, for a service with this view, and in the
/// context. They are one.
pub fn normal_and_states(
    alloc: Global,
    table: &Table,
    view: &View,
    context: &Context,
    slot: usize,
) -> Result<(State, State), Memory>
    requires { slot < length (slots_of table.now) }
    ensures one { IfOk result (λ two. two.0 ≡ two.1) }
    ensures kept { IfOk result
        (λ two. (normal : List Atom) (at : SlotAt)
        → IsNormalOf table.now (plain_view_of view.now) context.now normal
        → HasSlot table.now slot at
        → (two.0 ≡ State.Exact) ↔ IsEnded normal (field_path at.numbers)) }
    ensures own { IfOk result (λ two. (at : SlotAt) → HasSlot table.now slot at
        → (two.1 ≡ State.Exact) ↔ IsEnded context.now (field_path at.numbers)) }
{
    // The proof rests on this law, and learns that the fields make a table and that the list is
    // well formed.
    normal_form_keeps();
    let _ = table.nodes();
    let _ = context.list();
    let fewer = normal(alloc, table, view, context.copy()?)?;
    let kept = state_of(table, &fewer, slot);
    let own = state_of(table, context, slot);
    Ok((kept, own))
}
