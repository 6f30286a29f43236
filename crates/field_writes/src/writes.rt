//! Writes to fields of every shape.

ghost use Rattle.std.specs.Prelude.{◌≡◌, ◌++◌, ◌-◌, true, ◌≤◌, ◌<◌, codes, drop, length, map, take, IfOk, OnOk};
ghost use Rattle.std.specs.Option.{option_map};
ghost use Rattle.bag_model.specs.Shapes as shapes;
ghost use Rattle.bag_model.specs.Tables.{AreFields, IsShape};
ghost use Rattle.bag_model.specs.Values as values;
ghost use Rattle.bag_model.specs.Values.{bottom, values_list};
ghost use Rattle.bag_value.specs.Vals.{plain};
ghost use Rattle.text_lines.specs.Answers.{IsSomeOf};
ghost use Rattle.field_table.specs.Plain.{shape_of, nodes_of};
ghost use Rattle.scalar_types.specs.KindViews.{kind_of};
ghost use Rattle.scalar_types.specs.Scalars.{value_of};
ghost use Rattle.field_writes.specs.Ends.{TakesFront};
ghost use Rattle.field_writes.specs.Writes.{HasNoEquals, IsFirstNamed, IsWrite, one_at};

use crate::ends::behind;
use crate::literals::{read_literal, take_literal, take_writer};
use bag_decode::bottom_of;
use bag_value::{Entries, Entry, ScalarSet, Val, Vals};
use context_model::Form;
use counter_type::Counts;
use field_table::{Shape, Slots};
use outside::Memory;
use scalar_types::ScalarKind;
use set_map_types::SetOf;
use std::alloc::Global;
use text_lines::read_decimal;

/// The value that a text writes to a field of this shape, or none where the text is no write of it.
/// Of a write's payloads and keys none is longer than those of the form.
#[cycle(read)]
pub fn read_write(
    alloc: Global,
    form: Form,
    shape: &Shape,
    text: &[u8],
) -> Result<Option<Val>, Memory>
    requires { IsShape (shape_of shape.now) }
    ensures { IfOk result
        (λ read. IsSomeOf (λ v. IsWrite form (shape_of shape.now) v text.now)
        (option_map plain read)) }
{
    match shape {
        Shape::Taint => Ok(read_mark(text)),
        Shape::Scalar(kind) => match read_literal(alloc, form, kind, text)? {
            Some(scalar) => Ok(Some(Val::Scalar(Some(scalar)))),
            None => Ok(None),
        },
        Shape::Greatest(kind) => match read_literal(alloc, form, kind, text)? {
            Some(scalar) => Ok(Some(Val::Greatest(Some(scalar)))),
            None => Ok(None),
        },
        Shape::Set(kind) => match read_element(alloc, form, kind, text)? {
            Some(set) => Ok(Some(Val::Set(set))),
            None => Ok(None),
        },
        Shape::Counter => match read_count(alloc, form, text)? {
            Some(counts) => Ok(Some(Val::Counter(counts))),
            None => Ok(None),
        },
        Shape::Map(kind, value) => match read_entry(alloc, form, kind, value, text)? {
            Some(entries) => Ok(Some(Val::Map(entries))),
            None => Ok(None),
        },
        Shape::Bag(fields) => match read_field(alloc, form, fields, text)? {
            Some(values) => Ok(Some(Val::Bag(values))),
            None => Ok(None),
        },
    }
}

/// A map with one key.
#[cycle(read)]
fn read_entry(
    alloc: Global,
    form: Form,
    kind: &ScalarKind,
    shape: &Shape,
    text: &[u8],
) -> Result<Option<Entries>, Memory>
    requires { IsShape (shape_of shape.now) }
    ensures { IfOk result (λ read. IsSomeOf
        (λ es. IsWrite form (shapes.Shape.Map (kind_of kind.now) (shape_of shape.now))
        (values.Value.Map es) text.now) read) }
{
    let Some((key, rest)) = take_literal(alloc, form, kind, text)? else {
        return Ok(None);
    };
    let Some(rest) = behind(b':', rest) else {
        return Ok(None);
    };
    let Some(value) = read_write(alloc, form, shape, rest)? else {
        return Ok(None);
    };
    let mut entries = Entries::new(alloc);
    entries.push(Entry { key, value })?;
    Ok(Some(entries))
}

/// The values of a bag with one field that is written.
#[cycle(read)]
fn read_field(
    alloc: Global,
    form: Form,
    fields: &Slots,
    text: &[u8],
) -> Result<Option<Vals>, Memory>
    requires { AreFields (nodes_of fields.now) }
    ensures { IfOk result (λ read. IsSomeOf
        (λ vs. IsWrite form (shapes.Shape.Bag (nodes_of fields.now))
        (values.Value.Bag vs) text.now) read) }
{
    let Some((name, rest)) = split_name(text) else {
        return Ok(None);
    };
    let Some(place) = place_named(fields, name) else {
        return Ok(None);
    };
    let field = fields.get(place).unwrap();
    let Some(value) = read_write(alloc, form, &field.shape, rest)? else {
        return Ok(None);
    };
    Ok(Some(with_one(alloc, fields, place, value)?))
}

/// A taint that is put on.
fn read_mark(text: &[u8]) -> Option<Val>
    ensures { IsSomeOf (λ v. (v ≡ values.Value.Taint true) × (text.now ≡ codes "on"))
        (option_map plain result) }
{
    match text {
        b"on" => Some(Val::Taint(true)),
        _ => None,
    }
}

/// A set of one element.
fn read_element(
    alloc: Global,
    form: Form,
    kind: &ScalarKind,
    text: &[u8],
) -> Result<Option<ScalarSet>, Memory>
    ensures { IfOk result
        (λ read. IsSomeOf (λ v. IsWrite form (shapes.Shape.Set (kind_of kind.now)) v text.now)
        (option_map (λ set. values.Value.Set (kind_of set.codec) (map value_of set.items)) read)) }
{
    match read_literal(alloc, form, kind, text)? {
        Some(scalar) => Ok(Some(SetOf::of(alloc, kind.copy()?, scalar)?)),
        None => Ok(None),
    }
}

/// The count of one writer.
fn read_count(alloc: Global, form: Form, text: &[u8]) -> Result<Option<Counts>, Memory>
    ensures { IfOk result
        (λ read. IsSomeOf (λ counts.
        IsWrite form shapes.Shape.Counter (values.Value.Counter counts) text.now) read) }
{
    let Some((writer, rest)) = take_writer(alloc, form, text)? else {
        return Ok(None);
    };
    let Some(digits) = behind(b':', rest) else {
        return Ok(None);
    };
    match read_decimal(digits) {
        Some(count) => Ok(Some(Counts::of(alloc, writer.as_slice(), count)?)),
        None => Ok(None),
    }
}

/// The name between the dot that the text begins with and the first equals sign, and what follows
/// that.
fn split_name(text: &[u8]) -> Option<(&[u8], &[u8])>
    ensures { TakesFront
        (λ name rest. (text.now ≡ codes "." ++ name ++ codes "=" ++ rest) × HasNoEquals name)
        (option_map (λ split. (split.0.now, split.1.now)) result) }
{
    let [b'.', named @ ..] = text else {
        return None;
    };
    match named.iter().position(|byte| *byte == b'=') {
        Some(at) => Some((&named[..at], &named[at + 1..])),
        None => None,
    }
}

/// The place of the first field of this name.
fn place_named(fields: &Slots, name: &[u8]) -> Option<usize>
    ensures { IsFirstNamed (shapes.fields (nodes_of fields.now)) name.now result }
{
    for at in 0..fields.len() {
        if fields.get(at).unwrap().name.as_str().as_bytes() == name {
            return Some(at);
        }
    }
    None
}

/// Adds bottom for each field from a place on up to another.
fn push_bottoms(
    alloc: Global,
    fields: &Slots,
    from: usize,
    to: usize,
    values: &mut Vals,
) -> Result<(), Memory>
    requires order { from ≤ to }
    requires within { to ≤ length (shapes.fields (nodes_of fields.now)) }
    ensures { OnOk result (values_list values.new
        ≡ values_list values.old
        ++ map (λ field. bottom field.shape)
        (take (to - from) (drop from (shapes.fields (nodes_of fields.now))))) }
{
    for at in from..to {
        values.push(bottom_of(alloc, &fields.get(at).unwrap().shape)?)?;
    }
    Ok(())
}

/// The values of fields all of which are bottom except one.
fn with_one(alloc: Global, fields: &Slots, place: usize, value: Val) -> Result<Vals, Memory>
    requires { place < length (shapes.fields (nodes_of fields.now)) }
    ensures { IfOk result (λ values. values ≡ one_at (nodes_of fields.now) place (plain value)) }
{
    let count = fields.len();
    let mut values = Vals::new(alloc);
    push_bottoms(alloc, fields, 0, place, &mut values)?;
    values.push(value)?;
    push_bottoms(alloc, fields, place + 1, count, &mut values)?;
    Ok(values)
}
