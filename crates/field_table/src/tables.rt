//! Tables.

ghost use Rattle.std.specs.Prelude.{◌≡◌, ◌<◌, length, Some, IfOk};
ghost use Rattle.std.specs.List.{slice_get};
ghost use Rattle.std.specs.Option.{option_map};
ghost use Rattle.bag_model.specs.Slots.{slots_of, name_path, FindsSlot, FindsRange};
ghost use Rattle.bag_model.specs.Tables.{IsTable};
ghost use Rattle.field_table.specs.Tables.{IsReady};
ghost use Rattle.field_table.specs.Plain.{shape_of, nodes_of, kept_bag, IsIndexed};

use crate::shapes::{Shape, Slots};
use crate::slot_paths::SlotPath;
use outside::{Memory, Text};
use std::alloc::Global;
use std::marker::Model;

/// The fields of a bag, with all nested bags in place.
#[derive(Debug, Drop)]
pub struct Table {
    nodes: Slots,
}

impl Model for Table {
    ghost use Rattle.bag_model.specs.Shapes.{Nodes};
    ghost use Rattle.bag_model.specs.ShapeCode.{nodes_code};

    ghost Value = { Nodes };

    ghost coded = { nodes_code };

    ghost use Rattle.bag_model.specs.Tables.{IsTable};
    ghost use Rattle.field_table.specs.Plain.{nodes_of, IsIndexed, IsOrdered};

    ghost view = { λ table. nodes_of table.nodes };

    ghost invariant = { λ table. IsTable (nodes_of table.nodes) × IsIndexed table.nodes × IsOrdered table.nodes };
}

impl Table {
    /// The table with these fields. It takes no memory.
    pub fn of(mut nodes: Slots) -> Table
        requires table { IsTable (nodes_of nodes) }
        requires indexed { IsIndexed nodes }
        ensures { result ≡ nodes_of nodes }
    {
        nodes.sort_index();
        Table { nodes }
    }

    /// The fields of the outermost bag.
    pub fn nodes(&self) -> &Slots
        ensures nodes { nodes_of result.now ≡ self.now }
        ensures table { IsTable self.now }
        ensures ready { IsReady (kept_bag result.now) }
    {
        &self.nodes
    }

    /// How many slots there are.
    pub fn slots(&self) -> usize
        ensures { result ≡ length (slots_of self.now) }
    {
        self.nodes.slot_count()
    }

    /// The slot with this name path, its names joined by dots. There is none for the path of a bag.
    pub fn find(&self, dotted: &str) -> Option<usize>
        ensures { FindsSlot self.now dotted.now result }
    {
        let (slot, shape) = self.nodes.find(dotted)?;
        if let Shape::Bag(_) = shape {
            None
        } else {
            Some(slot)
        }
    }

    /// The slots of the field with this name path: the number of the first, and the number after
    /// the last. The field may be a bag, also one without slots.
    pub fn find_range(&self, dotted: &str) -> Option<(usize, usize)>
        ensures { FindsRange self.now dotted.now result }
    {
        let (before, shape) = self.nodes.find(dotted)?;
        Some((before, before + shape.slot_count()))
    }

    /// The shape of a slot.
    pub fn shape(&self, slot: usize) -> &Shape
        requires { slot < length (slots_of self.now) }
        ensures { Some (shape_of result.now)
            ≡ option_map (λ found. found.shape) (slice_get (slots_of self.now) slot) }
    {
        self.nodes.shape_at(slot)
    }

    /// The numbers of the fields on the way to a slot, that of the outermost field first: at most
    /// `LEVELS_MAX`. It takes no memory.
    pub fn numbers(&self, slot: usize) -> SlotPath
        requires { slot < length (slots_of self.now) }
        ensures { Some result
            ≡ option_map (λ found. found.numbers) (slice_get (slots_of self.now) slot) }
    {
        let mut path = SlotPath::new();
        self.nodes.put_numbers(slot, &mut path);
        path
    }

    /// The name path of a slot: the names of the fields on the way to it, joined by dots.
    pub fn name(&self, alloc: Global, slot: usize) -> Result<Text, Memory>
        requires { slot < length (slots_of self.now) }
        ensures { IfOk result
            (λ name. Some name ≡ option_map name_path (slice_get (slots_of self.now) slot)) }
    {
        let mut path = String::new(alloc);
        self.nodes.put_name(slot, &mut path)?;
        Text::from_string(path)
    }
}
