//! Tables printed.

ghost use Rattle.std.specs.Prelude.{◌≡◌, ◌++◌, ◌≤◌, ◌+◌, codes, map, IfOk, OnOk};
ghost use Rattle.std.specs.Fmt.{decimal};
ghost use Rattle.std.specs.List.{join_with_byte};
ghost use Rattle.context_model.specs.declared.TheConstants.{LEVELS_MAX};
ghost use Rattle.bag_model.specs.Tables.{levels, levels_under};
ghost use Rattle.bag_model.specs.Words.{word_text};
ghost use Rattle.field_table.specs.Plain.{shape_of, field_of, nodes_of};
ghost use Rattle.scalar_types.specs.KindViews.{kind_of};
ghost use Rattle.table_text.specs.TableTexts.{kind_text, shape_text, field_line, fields_text, bag_text, table_text};

use field_table::{Shape, Slot, Slots, Table};
use itoa::{Buffer, Integer};
use outside::Memory;
use scalar_types::{KindList, ScalarKind};
use std::alloc::Global;

/// The text of a table: its first line, and a line for each field.
pub fn print_table(alloc: Global, table: &Table) -> Result<Vec<u8>, Memory>
    ensures { IfOk result (λ text. text.items ≡ table_text table.now) }
{
    let mut text = Vec::new(alloc);
    text.extend_from_slice(b"baggage table 1\n")?;
    put_fields(0, table.nodes(), &mut text)?;
    Ok(text)
}

/// Appends the lines of a bag's fields.
#[cycle(printing)]
fn put_fields(depth: usize, fields: &Slots, into: &mut Vec<u8>) -> Result<(), Memory>
    requires { depth + levels (nodes_of fields.now) ≤ LEVELS_MAX }
    ensures { OnOk result
        (into.new.items ≡ into.old.items ++ fields_text depth (nodes_of fields.now)) }
{
    for at in 0..fields.len() {
        let field = fields.get(at).unwrap();
        put_line(depth, field, into)?;
        put_bag(depth + 1, &field.shape, into)?;
    }
    Ok(())
}

/// Appends the lines of the fields of the bag that a shape ends in.
#[cycle(printing)]
fn put_bag(depth: usize, shape: &Shape, into: &mut Vec<u8>) -> Result<(), Memory>
    requires { depth + levels_under (shape_of shape.now) ≤ LEVELS_MAX }
    ensures { OnOk result (into.new.items ≡ into.old.items ++ bag_text depth (shape_of shape.now)) }
{
    match shape {
        Shape::Map(_, value) => put_bag(depth, value, into),
        Shape::Bag(fields) => put_fields(depth, fields, into),
        Shape::Taint | Shape::Scalar(_) | Shape::Greatest(_) | Shape::Set(_) | Shape::Counter => Ok(
            (),
        ),
    }
}

/// Appends the line of a field.
fn put_line(depth: usize, field: &Slot, into: &mut Vec<u8>) -> Result<(), Memory>
    ensures { OnOk result (let plain = field_of field.now in
        into.new.items ≡ into.old.items
        ++ field_line (decimal depth) plain.name plain.number plain.shape) }
{
    put_number(depth, into)?;
    into.push(b' ')?;
    put_number(field.number, into)?;
    into.push(b' ')?;
    into.extend_from_slice(field.name.as_str().as_bytes())?;
    into.push(b' ')?;
    put_shape(&field.shape, into)?;
    into.push(b'\n')?;
    Ok(())
}

/// Appends a number in decimal.
fn put_number<N: Integer>(number: N, into: &mut Vec<u8>) -> Result<(), Memory>
    ensures { OnOk result (into.new.items ≡ into.old.items ++ N.text number) }
{
    let mut digits = Buffer::new();
    into.extend_from_slice(digits.format(number).as_bytes())?;
    Ok(())
}

/// Appends the words of a shape.
fn put_shape(shape: &Shape, into: &mut Vec<u8>) -> Result<(), Memory>
    ensures { OnOk result (into.new.items ≡ into.old.items ++ shape_text (shape_of shape.now)) }
{
    match shape {
        Shape::Taint => into.extend_from_slice(b"taint")?,
        Shape::Counter => into.extend_from_slice(b"counter")?,
        Shape::Bag(_) => into.extend_from_slice(b"bag")?,
        Shape::Scalar(kind) => {
            into.extend_from_slice(b"scalar ")?;
            put_kind(kind, into)?;
        }
        Shape::Greatest(kind) => {
            into.extend_from_slice(b"greatest ")?;
            put_kind(kind, into)?;
        }
        Shape::Set(kind) => {
            into.extend_from_slice(b"set ")?;
            put_kind(kind, into)?;
        }
        Shape::Map(key, value) => {
            into.extend_from_slice(b"map ")?;
            put_kind(key, into)?;
            into.push(b' ')?;
            put_shape(value, into)?;
        }
    }
    Ok(())
}

/// Appends the text of a kind.
fn put_kind(kind: &ScalarKind, into: &mut Vec<u8>) -> Result<(), Memory>
    ensures { OnOk result (into.new.items ≡ into.old.items ++ kind_text (kind_of kind.now)) }
{
    match kind {
        ScalarKind::One(word) => {
            into.extend_from_slice(word.text().as_bytes())?;
            Ok(())
        }
        ScalarKind::Packed(words) => put_struct(words, into),
    }
}

/// Appends the words of a struct's fields between parentheses.
fn put_struct(words: &KindList, into: &mut Vec<u8>) -> Result<(), Memory>
    ensures { OnOk result (into.new.items
        ≡ into.old.items ++ (codes "(" ++ join_with_byte 44 (map word_text words.now)
        ++ codes ")")) }
{
    into.push(b'(')?;
    for (at, word) in words.as_slice().iter().enumerate() {
        if at > 0 {
            into.push(b',')?;
        }
        into.extend_from_slice(word.text().as_bytes())?;
    }
    into.push(b')')?;
    Ok(())
}
