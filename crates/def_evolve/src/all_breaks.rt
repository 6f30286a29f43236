//! The fields of an old table that may not become what a new table says.

ghost use Rattle.std.specs.Prelude.{◌≡◌, ◌∷◌, ◌++◌, [], IfOk, OnOk, if◌then◌else◌, map, string_bytes};
ghost use Rattle.bag_model.specs.Shapes.{Bag};
ghost use Rattle.bag_model.specs.Tables.{IsShape, AreFields};
ghost use Rattle.field_table.specs.Plain.{nodes_of, shape_of};
ghost use Rattle.def_evolve.specs.Breaks.{part_text, way_text};
ghost use Rattle.def_evolve.specs.BreakLists.{AreBreaks, break_behind, break_of, own_break, sides_text};

use crate::sides::Side;
use crate::verdicts::{Change, Part};
use crate::widening::widens;
use field_table::{Shape, Slots, Table};
use itoa::Buffer;
use outside::{Memory, Text};
use std::alloc::Global;

/// A field that may not become what the new table says: the way to it, why, and what both tables
/// have there.
#[derive(Debug, Drop)]
pub struct Break<'a> {
    pub way: Vec<Part>,
    pub change: Change,
    pub old: Side<'a>,
    pub new: Side<'a>,
}

impl<'a> Break<'a> {
    /// A break at the fields themselves. It takes no memory.
    fn new(alloc: Global, change: Change, old: &'a Shape, new: &'a Shape) -> Break<'a>
        ensures { break_of result ≡ own_break change (shape_of old.now) (shape_of new.now) }
    {
        Break {
            way: Vec::new(alloc),
            change,
            old: Side::new(alloc, old),
            new: Side::new(alloc, new),
        }
    }

    /// The same break, seen from the fields around, in which the next ones have these names.
    fn prepend(self, part: Part, name: &'a str, other: &'a str) -> Result<Break<'a>, Memory>
        ensures { IfOk result (λ found. break_of found
            ≡ break_behind part name.now other.now (break_of self.entry)) }
    {
        let Break {
            mut way,
            change,
            old,
            new,
        } = self;
        way.insert(0, part)?;
        let old = old.prepend(name)?;
        let new = new.prepend(other)?;
        Ok(Break {
            way,
            change,
            old,
            new,
        })
    }

    /// The numbers on the way joined by dots, with `*` for the values of a map.
    pub fn path(&self, alloc: Global) -> Result<Text, Memory>
        ensures { IfOk result (λ path. path ≡ way_text self.now.way.items) }
    {
        let mut path = String::new(alloc);
        for (at, part) in self.way.iter().enumerate() {
            if at > 0 {
                path.push('.')?;
            }
            put_part(*part, &mut path)?;
        }
        Text::from_string(path)
    }

    /// What both tables have there: the names and the type, as in
    /// `load.*: string to load.*: uint32`.
    pub fn sides(&self, alloc: Global) -> Result<Text, Memory>
        ensures { IfOk result (λ text. text ≡ sides_text (break_of self.now)) }
    {
        let mut text = String::new(alloc);
        self.old.put(alloc, &mut text)?;
        text.push_str(" to ")?;
        self.new.put(alloc, &mut text)?;
        Text::from_string(text)
    }
}

/// Appends a part of a way.
fn put_part(part: Part, path: &mut String) -> Result<(), Memory>
    ensures { OnOk result (string_bytes path.new ≡ string_bytes path.old ++ part_text part) }
{
    match part {
        Part::Number(number) => {
            let mut digits = Buffer::new();
            path.push_str(digits.format(number))?;
        }
        Part::MapValue => path.push('*')?,
    }
    Ok(())
}

/// The break at two fields themselves, unless the old one may become the new one.
fn own_breaks<'a>(
    alloc: Global,
    fits: bool,
    change: Change,
    old: &'a Shape,
    new: &'a Shape,
) -> Result<Vec<Break<'a>>, Memory>
    ensures { IfOk result (λ found. map break_of found.items
        ≡ (if fits then [] else own_break change (shape_of old.now) (shape_of new.now) ∷ [])) }
{
    let mut found = Vec::new(alloc);
    if !fits {
        found.push(Break::new(alloc, change, old, new))?;
    }
    Ok(found)
}

/// Adds breaks of two fields inside others, as they are seen from the fields around.
fn put_inner<'a>(
    found: &mut Vec<Break<'a>>,
    inner: Vec<Break<'a>>,
    part: Part,
    name: &'a str,
    other: &'a str,
) -> Result<(), Memory>
    ensures { OnOk result (map break_of found.new.items ≡ map break_of found.old.items
        ++ map (break_behind part name.now other.now) (map break_of inner.entry.items)) }
{
    for one in inner {
        found.push(one.prepend(part, name, other)?)?;
    }
    Ok(())
}

/// All breaks of a field of the old shape that is to become one of the new shape.
#[cycle(walk)]
fn breaks_of<'a>(alloc: Global, old: &'a Shape, new: &'a Shape) -> Result<Vec<Break<'a>>, Memory>
    requires old { IsShape (shape_of old.now) }
    requires new { IsShape (shape_of new.now) }
    ensures { IfOk result (λ found.
        AreBreaks (shape_of old.now) (shape_of new.now) (map break_of found.items)) }
{
    match (old, new) {
        (Shape::Taint, Shape::Taint) => own_breaks(alloc, true, Change::Shape, old, new),
        (Shape::Counter, Shape::Counter) => own_breaks(alloc, true, Change::Shape, old, new),
        (Shape::Scalar(kind), Shape::Scalar(wider)) => {
            own_breaks(alloc, widens(kind, wider), Change::Kind, old, new)
        }
        (Shape::Greatest(kind), Shape::Greatest(wider)) => {
            own_breaks(alloc, widens(kind, wider), Change::Kind, old, new)
        }
        (Shape::Set(kind), Shape::Set(wider)) => {
            own_breaks(alloc, widens(kind, wider), Change::Kind, old, new)
        }
        (Shape::Map(key, value), Shape::Map(wider, more)) => {
            let mut found = own_breaks(alloc, widens(key, wider), Change::Key, old, new)?;
            let inner = breaks_of(alloc, value, more)?;
            put_inner(&mut found, inner, Part::MapValue, "*", "*")?;
            Ok(found)
        }
        (Shape::Bag(fields), Shape::Bag(others)) => breaks_in(alloc, fields, others),
        _ => own_breaks(alloc, false, Change::Shape, old, new),
    }
}

/// All breaks of the fields of a bag. Those that the new bag has no field for are left out.
#[cycle(walk)]
fn breaks_in<'a>(
    alloc: Global,
    fields: &'a Slots,
    others: &'a Slots,
) -> Result<Vec<Break<'a>>, Memory>
    requires old { AreFields (nodes_of fields.now) }
    requires new { AreFields (nodes_of others.now) }
    ensures { IfOk result (λ found. AreBreaks
        (Bag (nodes_of fields.now)) (Bag (nodes_of others.now)) (map break_of found.items)) }
{
    let mut found = Vec::new(alloc);
    for at in 0..fields.len() {
        let field = fields.get(at).unwrap();
        if let Some((_, other)) = others.find_number(u64::from(field.number)) {
            let inner = breaks_of(alloc, &field.shape, &other.shape)?;
            let part = Part::Number(field.number);
            put_inner(
                &mut found,
                inner,
                part,
                field.name.as_str(),
                other.name.as_str(),
            )?;
        }
    }
    Ok(found)
}

/// All fields of the old table that may not become what the new table says, by the order of their
/// ways: numbers rise, a field comes before those inside it, and a map before its values. `evolve`
/// tells the first of them.
pub fn breaks<'a>(alloc: Global, old: &'a Table, new: &'a Table) -> Result<Vec<Break<'a>>, Memory>
    ensures { IfOk result (λ found.
        AreBreaks (Bag old.now) (Bag new.now) (map break_of found.items)) }
{
    breaks_in(alloc, old.nodes(), new.nodes())
}
