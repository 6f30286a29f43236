//! The JSON objects of slots and of contexts.

ghost use Rattle.std.specs.Prelude.{◌≡◌, ◌<◌, [], length, map, string_bytes, IfOk};
ghost use Rattle.context_model.specs.Framing.{bytes_of};
ghost use Rattle.bag_model.specs.Readings.{PathsOf};
ghost use Rattle.bag_model.specs.Slots.{SlotAt, slots_of};
ghost use Rattle.bag_model.specs.SlotValues.{HasSlot};
ghost use Rattle.bag_model.specs.Tables.{IsShape};
ghost use Rattle.bag_model.specs.Typed.{AreTyped};
ghost use Rattle.bag_model.specs.Values.{IsOfShape};
ghost use Rattle.field_table.specs.Plain.{shape_of};
ghost use Rattle.bag_value.specs.Vals.{plain};
ghost use Rattle.text_lines.specs.HexLines.{hex_text};
ghost use Rattle.text_model.specs.ValueTexts.{value_text};
ghost use Rattle.serde_json.specs.View.{view};
ghost use Rattle.context_json.specs.Objects.{AreSlotObjects, IsContextJson, IsContextObject, slot_object, state_word};

use atom_list::Context;
use bag_decode::slot_value;
use bag_scan::{State, first_marker, spans_of};
use bag_value::Val;
use field_table::{Shape, Table};
use outside::Memory;
use report_text::put_value;
use serde_json::{Value, json};
use std::alloc::Global;
use text_lines::push_hex;
use wire_bytes::{Form, write};

/// The word of a state.
fn word_of(state: State) -> &'static str
    ensures { result.now ≡ state_word state }
{
    match state {
        State::Exact => "exact",
        State::Partial => "partial",
    }
}

/// The text of a value of this shape.
fn text_of(alloc: Global, shape: &Shape, value: &Val) -> Result<String, Memory>
    requires shape { IsShape (shape_of shape.now) }
    requires value { IsOfShape (shape_of shape.now) (plain value.now) }
    ensures { IfOk result
        (λ text. string_bytes text ≡ value_text (shape_of shape.now) (plain value.now)) }
{
    let mut text = Vec::new(alloc);
    put_value(shape, value, &mut text)?;
    Ok(String::from_utf8(text).unwrap())
}

/// The hexadecimal digits of the bytes of a context in this form, or a dash where it has none.
pub fn digits_of(alloc: Global, form: Form, context: &Context) -> Result<String, Memory>
    ensures { IfOk result (λ digits. string_bytes digits ≡ hex_text (bytes_of form context.now)) }
{
    let mut digits = Vec::new(alloc);
    push_hex(&mut digits, write(alloc, form, context.list())?.as_slice())?;
    Ok(String::from_utf8(digits).unwrap())
}

/// The object of a slot that has this state and this value.
fn slot_json(
    alloc: Global,
    table: &Table,
    slot: usize,
    state: State,
    value: &Val,
) -> Result<Value, Memory>
    requires slot { slot < length (slots_of table.now) }
    requires value { (at : SlotAt) → HasSlot table.now slot at
        → IsOfShape at.shape (plain value.now) }
    ensures { IfOk result
        (λ json. (at : SlotAt) → HasSlot table.now slot at
        → view json ≡ slot_object at state (plain value.now)) }
{
    // The proof learns here that the shapes of the table are sound.
    let _ = table.nodes();
    let path = table.name(alloc, slot)?;
    let text = text_of(alloc, table.shape(slot), value)?;
    Ok(json!(in alloc; {"path": path.as_str(), "state": word_of(state), "text": text})?)
}

/// The objects of all slots of a typed context, in the order of the table: of each its name path,
/// whether it is exact or partial, and the text of its value.
pub fn slots_json(alloc: Global, table: &Table, context: &Context) -> Result<Vec<Value>, Memory>
    requires { AreTyped table.now (PathsOf context.now) [] }
    ensures { IfOk result (λ fields. AreSlotObjects table.now context.now (map view fields.items)) }
{
    let spans = spans_of(alloc, table, context)?;
    let marker = first_marker(context);
    let mut fields = Vec::with_capacity(alloc, table.slots())?;
    for slot in 0..table.slots() {
        let span = &spans[slot];
        let value = slot_value(alloc, table, context, slot, span)?;
        fields.push(slot_json(alloc, table, slot, span.state(marker), &value)?)?;
    }
    Ok(fields)
}

/// The object of a typed context, with its bytes in this form.
fn context_object(
    alloc: Global,
    table: &Table,
    form: Form,
    context: &Context,
) -> Result<Value, Memory>
    requires typed { AreTyped table.now (PathsOf context.now) [] }
    ensures { IfOk result (λ json. IsContextObject table.now form context.now (view json)) }
{
    let bytes = digits_of(alloc, form, context)?;
    let fields = slots_json(alloc, table, context)?;
    Ok(json!(in alloc; {"bytes": bytes, "fields": fields})?)
}

/// The object of a typed context as JSON, as `serde_json` writes it without blanks: the digits of
/// its bytes in the form that is asked for, and for each slot its name path, whether it is exact or
/// partial and the text of its value.
pub fn context_json(
    alloc: Global,
    table: &Table,
    form: Form,
    context: &Context,
) -> Result<Vec<u8>, Memory>
    requires typed { AreTyped table.now (PathsOf context.now) [] }
    ensures { IfOk result (λ text. IsContextJson table.now form context.now text.items) }
{
    let object = context_object(alloc, table, form, context)?;
    Ok(object.to_vec(alloc)?)
}
