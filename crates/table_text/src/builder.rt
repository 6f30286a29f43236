//! The bags of a table, while lines say their fields one after another.

ghost use Rattle.std.specs.Prelude.{◌≡◌, ◌≢◌, ◌+◌, ◌<◌, ◌≤◌, ◌++◌, [], ◌∷◌, length, reverse, IfOk, IfErr, OnOk};
ghost use Rattle.context_model.specs.declared.TheConstants.{LEVELS_MAX};
ghost use Rattle.bag_model.specs.declared.TheConstants.{FIELDS_MAX};
ghost use Rattle.bag_model.specs.Shapes.{fields, no_node};
ghost use Rattle.bag_model.specs.Tables.{levels_under};
ghost use Rattle.field_table.specs.Plain.{shape_of, nodes_of, IsIndexed, IsIndexedShape};
ghost use Rattle.text_lines.specs.Readings.{NoneOf, IsFirstOf};
ghost use Rattle.table_text.specs.declared.TheConstants.{MAPS_MAX};
ghost use Rattle.table_text.specs.Names.{HaveNames};
ghost use Rattle.table_text.specs.Rows.{IsToldShape, map_count};
ghost use Rattle.table_text.specs.Rules.{ends_in_bag, table_rules, rules_of_bag, RowBreaks};
ghost use Rattle.table_text.specs.TableRows.{filled, rows_of};
ghost use Rattle.table_text.specs.Views.{plain_row_of, IsAddRefused};
ghost use Rattle.table_text.specs.Builder.{IsSoundRow, IsSoundBuilder, IsFresh, depth_of, rows_so_far};

use crate::MAPS_MAX;
use crate::faults::TableCode;
use crate::names::FieldNames;
use crate::rows::Row;
use bag_model::{FIELDS_MAX, LEVELS_MAX};
use field_table::{Shape, Slots, Table};
use outside::{Memory, OrMemory};
use std::alloc::Global;
use std::mem;

/// Whether a shape ends in a bag, whose fields the next lines say.
fn ends_in_bag(shape: &Shape) -> bool
    ensures { result ≡ ends_in_bag (shape_of shape.now) }
{
    match shape {
        Shape::Map(_, value) => ends_in_bag(value),
        Shape::Bag(_) => true,
        Shape::Taint | Shape::Scalar(_) | Shape::Greatest(_) | Shape::Set(_) | Shape::Counter =>
            false,
    }
}

/// The levels of headers under a field's own, those of the bag aside that its shape ends in.
fn levels_under(shape: &Shape) -> usize
    requires told { IsToldShape (shape_of shape.now) }
    requires flat { map_count (shape_of shape.now) ≤ MAPS_MAX }
    ensures levels { result ≡ levels_under (shape_of shape.now) }
    ensures bound { result ≤ map_count (shape_of shape.now) + 1 }
{
    match shape {
        Shape::Map(_, value) => 1 + levels_under(value),
        Shape::Counter => 1,
        Shape::Taint | Shape::Scalar(_) | Shape::Greatest(_) | Shape::Set(_) | Shape::Bag(_) => 0,
    }
}

/// Puts the fields into the bag that a shape ends in.
fn fill(shape: &mut Shape, fields: Slots)
    ensures filled { shape_of shape.new ≡ filled (nodes_of fields) (shape_of shape.old) }
    ensures indexed { IsIndexed fields → IsIndexedShape shape.old → IsIndexedShape shape.new }
{
    match shape {
        Shape::Map(_, value) => fill(value, fields),
        Shape::Bag(inner) => *inner = fields,
        Shape::Taint | Shape::Scalar(_) | Shape::Greatest(_) | Shape::Set(_) | Shape::Counter => {}
    }
}

/// A bag whose fields are being read.
#[derive(Drop)]
struct OpenBag<'a> {
    /// The fields that are whole.
    fields: Slots,
    /// The names of all fields whose lines were read.
    names: FieldNames<'a>,
    /// The least number that the next field may have.
    least: u32,
    /// The level of the fields' headers.
    level: usize,
}

impl<'a> OpenBag<'a> {
    /// No field was read yet.
    fn new(alloc: Global, level: usize) -> OpenBag<'a>
        ensures fields { nodes_of result.fields ≡ no_node }
        ensures indexed { IsIndexed result.fields }
        ensures names { result.names ≡ [] }
        ensures least { result.least ≡ 0 }
        ensures level { result.level ≡ level }
    {
        OpenBag {
            fields: Slots::new(alloc),
            names: FieldNames::new(alloc),
            least: 0,
            level,
        }
    }

    /// Keeps the name and the number of a field whose line was read.
    fn note(&mut self, name: &'a str, number: u16) -> Result<(), Memory>
        ensures fields { OnOk result (self.new.fields ≡ self.old.fields) }
        ensures names { OnOk result (HaveNames self.new.names (name.now ∷ self.old.names)) }
        ensures least { OnOk result (self.new.least ≡ number + 1) }
        ensures level { OnOk result (self.new.level ≡ self.old.level) }
    {
        self.names.add(name)?;
        self.least = u32::from(number) + 1;
        Ok(())
    }

    /// Adds a field that is whole, and whose line was noted.
    fn push(&mut self, name: &str, number: u16, shape: Shape) -> Result<(), Memory>
        ensures fields { OnOk result (fields (nodes_of self.new.fields)
            ≡ fields (nodes_of self.old.fields)
            ++ record { name = name.now; number = number; shape = shape_of shape } ∷ []) }
        ensures indexed { IsIndexed self.old.fields → IsIndexedShape shape
            → IsIndexed self.new.fields }
        ensures names { OnOk result (self.new.names ≡ self.old.names) }
        ensures least { OnOk result (self.new.least ≡ self.old.least) }
        ensures level { OnOk result (self.new.level ≡ self.old.level) }
    {
        self.fields.add(name, number, shape)
    }
}

/// A field whose line was read, and whose bag is being read.
#[derive(Drop)]
struct OpenField<'a> {
    /// The bag that the field is in.
    bag: OpenBag<'a>,
    row: Row<'a>,
}

/// The fields that lines have said so far. There are at most [`LEVELS_MAX`] open bags.
#[derive(Drop)]
pub(crate) struct Builder<'a> {
    /// The fields that are open, each in the bag of the one before it.
    outer: Vec<OpenField<'a>>,
    /// The innermost bag.
    bag: OpenBag<'a>,
    /// How many lines said a field.
    rows: usize,
}

impl<'a> Builder<'a> {
    /// No line said a field yet.
    pub(crate) fn new(alloc: Global) -> Builder<'a>
        ensures rows { rows_so_far result ≡ [] }
        ensures sound { IsSoundBuilder result }
        ensures fresh { IsFresh result }
    {
        Builder {
            outer: Vec::new(alloc),
            bag: OpenBag::new(alloc, 0),
            rows: 0,
        }
    }

    /// Closes the innermost bag.
    fn close(&mut self) -> Result<(), Memory>
        requires sound { IsSoundBuilder self.old }
        requires inner { 0 < depth_of self.old }
        ensures rows { OnOk result (rows_so_far self.new ≡ rows_so_far self.old) }
        ensures sound { OnOk result (IsSoundBuilder self.new) }
        ensures depth { OnOk result (depth_of self.new + 1 ≡ depth_of self.old) }
    {
        let OpenField { bag, row } = self.outer.pop().unwrap();
        let Row {
            name,
            number,
            mut shape,
            ..
        } = row;
        let inner = mem::replace(&mut self.bag, bag);
        fill(&mut shape, inner.fields);
        self.bag.push(name, number, shape)?;
        Ok(())
    }

    /// Closes all bags whose fields are deeper.
    fn close_to(&mut self, depth: usize) -> Result<(), Memory>
        requires sound { IsSoundBuilder self.old }
        requires depth { depth ≤ depth_of self.old }
        ensures rows { OnOk result (rows_so_far self.new ≡ rows_so_far self.old) }
        ensures sound { OnOk result (IsSoundBuilder self.new) }
        ensures depth { OnOk result (depth_of self.new ≡ depth) }
    {
        while self.outer.len() > depth {
            self.close()?;
        }
        Ok(())
    }

    /// Whether the innermost bag may have a field more as a line says it.
    fn check(&self, row: &Row<'_>) -> Result<(), TableCode>
        requires sound { IsSoundBuilder self.now }
        requires row { IsSoundRow row.now }
        requires depth { row.now.depth ≡ depth_of self.now }
        ensures ok { OnOk result
            (NoneOf (RowBreaks (reverse (rows_so_far self.now))
            (plain_row_of row.now)) rules_of_bag) }
        ensures err { IfErr result
            (IsFirstOf (RowBreaks (reverse (rows_so_far self.now))
            (plain_row_of row.now)) rules_of_bag) }
    {
        if u32::from(row.number) < self.bag.least {
            return Err(TableCode::Order);
        }
        if self.bag.names.contains(row.name) {
            return Err(TableCode::DuplicateField);
        }
        if self.bag.level + levels_under(&row.shape) >= LEVELS_MAX {
            return Err(TableCode::TooDeep);
        }
        if self.rows >= FIELDS_MAX {
            return Err(TableCode::TooManySlots);
        }
        Ok(())
    }

    /// Opens the bag that a field's shape ends in. The field's line was noted.
    fn open(&mut self, alloc: Global, row: Row<'a>) -> Result<(), Memory>
        requires level { self.old.bag.level ≤ LEVELS_MAX }
        requires told { IsToldShape (shape_of row.shape) }
        requires flat { map_count (shape_of row.shape) ≤ MAPS_MAX }
        ensures outer { OnOk result (self.new.outer.items
            ≡ self.old.outer.items ++ record { bag = self.old.bag; row = row.entry } ∷ []) }
        ensures rows { OnOk result (self.new.rows ≡ self.old.rows) }
        ensures fields { OnOk result (nodes_of self.new.bag.fields ≡ no_node) }
        ensures indexed { OnOk result (IsIndexed self.new.bag.fields) }
        ensures names { OnOk result (self.new.bag.names ≡ []) }
        ensures least { OnOk result (self.new.bag.least ≡ 0) }
        ensures level { OnOk result (self.new.bag.level
            ≡ self.old.bag.level + levels_under (shape_of row.entry.shape) + 1) }
    {
        let level = self.bag.level + levels_under(&row.shape) + 1;
        let bag = mem::replace(&mut self.bag, OpenBag::new(alloc, level));
        self.outer.push(OpenField { bag, row })?;
        Ok(())
    }

    /// Adds a field that the innermost bag may have.
    fn put_row(&mut self, alloc: Global, row: Row<'a>) -> Result<(), Memory>
        requires sound { IsSoundBuilder self.old }
        requires row { IsSoundRow row }
        requires depth { row.depth ≡ depth_of self.old }
        requires good { let before = reverse (rows_so_far self.old) in
            NoneOf (RowBreaks before (plain_row_of row)) rules_of_bag }
        ensures rows { OnOk result
            (rows_so_far self.new ≡ rows_so_far self.old ++ plain_row_of row.entry ∷ []) }
        ensures sound { OnOk result (IsSoundBuilder self.new) }
        ensures fresh { OnOk result (IsFresh self.new) }
    {
        self.rows += 1;
        self.bag.note(row.name, row.number)?;
        if ends_in_bag(&row.shape) {
            self.open(alloc, row)?;
            Ok(())
        } else {
            self.bag.push(row.name, row.number, row.shape)?;
            Ok(())
        }
    }

    /// Adds the field that the next line says.
    pub(crate) fn add(&mut self, alloc: Global, row: Row<'a>) -> Result<(), OrMemory<TableCode>>
        requires sound { IsSoundBuilder self.old }
        requires fresh { IsFresh self.old }
        requires row { IsSoundRow row }
        ensures good { OnOk result (let before = reverse (rows_so_far self.old) in
            NoneOf (RowBreaks before (plain_row_of row.entry)) table_rules) }
        ensures rows { OnOk result
            (rows_so_far self.new ≡ rows_so_far self.old ++ plain_row_of row.entry ∷ []) }
        ensures sound { OnOk result (IsSoundBuilder self.new) }
        ensures fresh { OnOk result (IsFresh self.new) }
        ensures err { IfErr result
            (IsAddRefused (reverse (rows_so_far self.old)) (plain_row_of row.entry)) }
    {
        if row.depth > self.outer.len() as u64 {
            return Err(OrMemory::Fault(TableCode::Depth));
        }
        let depth = row.depth as usize;
        if depth < self.outer.len() {
            self.close_to(depth)?;
        }
        self.check(&row)?;
        self.put_row(alloc, row)?;
        Ok(())
    }

    /// The table of the fields that all lines said.
    pub(crate) fn into_table(self) -> Result<Table, Memory>
        requires sound { IsSoundBuilder self }
        ensures { IfOk result (λ table. rows_of 0 table ≡ rows_so_far self.entry) }
    {
        let mut builder = self;
        builder.close_to(0)?;
        let Builder { bag, .. } = builder;
        Ok(Table::of(bag.fields))
    }
}
