//! Texts of values of every shape.

ghost use Rattle.std.specs.Prelude.{◌≡◌, map, IfOk};
ghost use Rattle.std.specs.Option.{option_map};
ghost use Rattle.field_table.specs.Plain.{shape_of, nodes_of};
ghost use Rattle.scalar_types.specs.Scalars.{value_of};
ghost use Rattle.bag_value.specs.Vals.{plain};
ghost use Rattle.text_model.specs.Commas.{in_braces, in_brackets};
ghost use Rattle.text_model.specs.ValueTexts as spec;
ghost use Rattle.text_model.specs.ValueTexts.{taint_text, scalar_or_dash, set_text, counts_text, entry_texts, field_texts};
ghost use Rattle.report_text.specs.Extension.{Appends};

use crate::commas::put_comma;
use crate::scalar_texts::{put_bytes, put_number, put_scalar};
use bag_value::{Entries, ScalarSet, Val, Vals};
use counter_type::Counts;
use field_table::{Shape, Slots};
use outside::Memory;
use scalar_types::Scalar;
use std::alloc::Global;

/// Appends the text of a value of a field of this shape. Where memory runs out, some bytes may be
/// left after what was there.
///
/// The shape gives the names of a bag's fields, and nothing else. A map or a bag under a shape of
/// another kind has no text.
#[cycle(text)]
pub fn put_value(shape: &Shape, value: &Val, into: &mut Vec<u8>) -> Result<(), Memory>
    ensures { Appends result
        (spec.value_text (shape_of shape.now) (plain value.now)) into.old into.new }
{
    match (shape, value) {
        (_, Val::Taint(on)) => put_taint(*on, into),
        (_, Val::Scalar(scalar)) => put_scalar_or_dash(scalar, into),
        (_, Val::Greatest(scalar)) => put_scalar_or_dash(scalar, into),
        (_, Val::Set(set)) => put_set(set, into),
        (_, Val::Counter(counts)) => put_counts(counts, into),
        (Shape::Map(_, inner), Val::Map(entries)) => put_map(inner, entries, into),
        (Shape::Bag(fields), Val::Bag(values)) => put_bag(fields, values, into),
        _ => Ok(()),
    }
}

/// The text of a value of a field of this shape.
pub fn value_text(alloc: Global, value: &Val, shape: &Shape) -> Result<Vec<u8>, Memory>
    ensures { IfOk result
        (λ text. text.items ≡ spec.value_text (shape_of shape.now) (plain value.now)) }
{
    let mut text = Vec::new(alloc);
    put_value(shape, value, &mut text)?;
    Ok(text)
}

/// Appends a map from each key to a value of this shape.
#[cycle(text)]
fn put_map(shape: &Shape, entries: &Entries, into: &mut Vec<u8>) -> Result<(), Memory>
    ensures { Appends result
        (in_braces (entry_texts (shape_of shape.now) entries.now)) into.old into.new }
{
    into.push(b'{')?;
    for (at, entry) in entries.as_slice().iter().enumerate() {
        put_comma(at, into)?;
        put_scalar(&entry.key, into)?;
        into.push(b':')?;
        put_value(shape, &entry.value, into)?;
    }
    into.push(b'}')?;
    Ok(())
}

/// Appends a bag of these fields.
#[cycle(text)]
fn put_bag(fields: &Slots, values: &Vals, into: &mut Vec<u8>) -> Result<(), Memory>
    ensures { Appends result
        (in_brackets (field_texts (nodes_of fields.now) values.now)) into.old into.new }
{
    into.push(b'[')?;
    for at in 0..fields.len().min(values.len()) {
        let field = fields.get(at).unwrap();
        let value = values.get(at).unwrap();
        put_comma(at, into)?;
        into.extend_from_slice(field.name.as_str().as_bytes())?;
        into.push(b'=')?;
        put_value(&field.shape, value, into)?;
    }
    into.push(b']')?;
    Ok(())
}

/// Appends a taint.
fn put_taint(on: bool, into: &mut Vec<u8>) -> Result<(), Memory>
    ensures { Appends result (taint_text on) into.old into.new }
{
    let word = if on { "on" } else { "off" };
    into.extend_from_slice(word.as_bytes())?;
    Ok(())
}

/// Appends a scalar, or a dash where there is none.
fn put_scalar_or_dash(scalar: &Option<Scalar>, into: &mut Vec<u8>) -> Result<(), Memory>
    ensures { Appends result (scalar_or_dash (option_map value_of scalar.now)) into.old into.new }
{
    match scalar {
        None => Ok(into.push(b'-')?),
        Some(scalar) => put_scalar(scalar, into),
    }
}

/// Appends a set.
fn put_set(set: &ScalarSet, into: &mut Vec<u8>) -> Result<(), Memory>
    ensures { Appends result (set_text (map value_of set.now.items)) into.old into.new }
{
    into.push(b'{')?;
    for at in 0..set.len() {
        put_comma(at, into)?;
        put_scalar(set.get(at).unwrap(), into)?;
    }
    into.push(b'}')?;
    Ok(())
}

/// Appends a counter.
fn put_counts(counts: &Counts, into: &mut Vec<u8>) -> Result<(), Memory>
    ensures { Appends result (counts_text counts.now) into.old into.new }
{
    put_number(counts.total(), into)?;
    into.push(b'{')?;
    for at in 0..counts.len() {
        let (writer, count) = counts.nth(at).unwrap();
        put_comma(at, into)?;
        put_bytes(writer, into)?;
        into.push(b':')?;
        put_number(count, into)?;
    }
    into.push(b'}')?;
    Ok(())
}
