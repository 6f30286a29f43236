//! What one of two tables has where they differ.

ghost use Rattle.std.specs.Prelude.{◌≡◌, ◌++◌, codes, map, IfOk, OnOk, string_bytes};
ghost use Rattle.bag_model.specs.Slots.{dotted};
ghost use Rattle.field_table.specs.Plain.{shape_of};
ghost use Rattle.scalar_types.specs.KindViews.{kind_of};
ghost use Rattle.def_evolve.specs.BreakLists.{kind_words, own_side, side_behind, side_of, side_text, spaced, type_text};

use field_table::Shape;
use outside::{Memory, Text};
use scalar_types::{KindList, ScalarKind};
use std::alloc::Global;

/// What one of two tables has at the end of a way.
#[derive(Debug, Drop)]
pub struct Side<'a> {
    /// The names of the fields on the way, with `*` for the values of a map.
    pub names: Vec<&'a str>,
    /// What the last field holds, or each value of the map.
    pub shape: &'a Shape,
}

impl<'a> Side<'a> {
    /// The side of the field itself. It takes no memory.
    pub(crate) fn new(alloc: Global, shape: &'a Shape) -> Side<'a>
        ensures { side_of result ≡ own_side (shape_of shape.now) }
    {
        Side {
            names: Vec::new(alloc),
            shape,
        }
    }

    /// The same side, seen from the field around.
    pub(crate) fn prepend(mut self, name: &'a str) -> Result<Side<'a>, Memory>
        ensures { IfOk result (λ side. side_of side ≡ side_behind name.now (side_of self.entry)) }
    {
        self.names.insert(0, name)?;
        Ok(self)
    }

    /// The names joined by dots.
    pub fn path(&self, alloc: Global) -> Result<Text, Memory>
        ensures { IfOk result (λ path.
            path ≡ dotted (map (λ name. name.now) self.now.names.items)) }
    {
        let mut path = String::new(alloc);
        for (at, name) in self.names.iter().enumerate() {
            if at > 0 {
                path.push('.')?;
            }
            path.push_str(*name)?;
        }
        Text::from_string(path)
    }

    /// Appends the names and the type.
    pub(crate) fn put(&self, alloc: Global, text: &mut String) -> Result<(), Memory>
        ensures { OnOk result (string_bytes text.new ≡ string_bytes text.old
            ++ side_text (side_of self.now)) }
    {
        let path = self.path(alloc)?;
        text.push_str(path.as_str())?;
        text.push_str(": ")?;
        put_type(self.shape, text)?;
        Ok(())
    }
}

/// Appends the type of a field.
fn put_type(shape: &Shape, text: &mut String) -> Result<(), Memory>
    ensures { OnOk result (string_bytes text.new ≡ string_bytes text.old
        ++ type_text (shape_of shape.now)) }
{
    match shape {
        Shape::Taint => text.push_str("taint")?,
        Shape::Counter => text.push_str("counter")?,
        Shape::Bag(_) => text.push_str("bag")?,
        Shape::Scalar(kind) => put_kind(kind, text)?,
        Shape::Greatest(kind) => {
            text.push_str("greatest<")?;
            put_kind(kind, text)?;
            text.push_str(">")?;
        }
        Shape::Set(kind) => {
            text.push_str("set<")?;
            put_kind(kind, text)?;
            text.push_str(">")?;
        }
        Shape::Map(key, value) => {
            text.push_str("map<")?;
            put_kind(key, text)?;
            text.push_str(", ")?;
            put_type(value, text)?;
            text.push_str(">")?;
        }
    }
    Ok(())
}

/// Appends the word of a kind, or those of a struct.
fn put_kind(kind: &ScalarKind, text: &mut String) -> Result<(), Memory>
    ensures { OnOk result (string_bytes text.new ≡ string_bytes text.old
        ++ kind_words (kind_of kind.now)) }
{
    match kind {
        ScalarKind::One(word) => {
            text.push_str(word.text())?;
            Ok(())
        }
        ScalarKind::Packed(words) => put_struct(words, text),
    }
}

/// Appends `struct` and the words of its fields.
fn put_struct(words: &KindList, text: &mut String) -> Result<(), Memory>
    ensures { OnOk result (string_bytes text.new ≡ string_bytes text.old
        ++ (codes "struct" ++ spaced words.now)) }
{
    text.push_str("struct")?;
    for word in words.as_slice() {
        text.push(' ')?;
        text.push_str(word.text())?;
    }
    Ok(())
}
