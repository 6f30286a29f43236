//! The lists of a module's parts, in the order of the text.
//!
//! They are four types and not one generic list: contracts see the fields of bags and of structs as
//! trees, and what a generic list holds can't be seen as something else.

ghost use Rattle.std.specs.Prelude.{◌≡◌, ◌↔◌, [], ◌∷◌, ◌++◌, IsTrue, OnOk, OnErr, length, map};
ghost use Rattle.std.specs.List.{slice_get};
ghost use Rattle.std.specs.Option.{option_map, option_copied};
ghost use Rattle.bdl_parser.specs.Views.{bag_field_of, struct_field_of};

use crate::trees::{BagField, Decl, Import, StructField};
use outside::Memory;
use std::alloc::Global;
use std::marker::Model;

/// The imports of a module.
#[derive(Drop)]
pub struct Imports {
    items: Vec<Import>,
}

impl Model for Imports {
    ghost use Rattle.std.specs.Prelude.{List};
    ghost use Rattle.bdl_parser.specs.declared.trees.Import.{Import};

    ghost Value = { List Import };

    ghost view = { λ list. list.items.items };
}

impl Imports {
    /// The empty list, without memory.
    pub fn new(alloc: Global) -> Imports
        ensures { result ≡ [] }
    {
        Imports {
            items: Vec::new(alloc),
        }
    }

    /// How many there are.
    pub fn len(&self) -> usize
        ensures { result ≡ length self.now }
    {
        self.items.len()
    }

    /// Whether there are none.
    pub fn is_empty(&self) -> bool
        ensures { IsTrue result ↔ (length self.now ≡ 0) }
    {
        self.items.is_empty()
    }

    /// The list as a slice.
    pub fn as_slice(&self) -> &[Import]
        ensures { result.now ≡ self.now }
    {
        self.items.as_slice()
    }

    /// The one with this number, from 0 on.
    pub fn get(&self, at: usize) -> Option<&Import>
        ensures { option_copied result ≡ slice_get self.now at }
    {
        self.items.get(at)
    }

    /// Adds one at the end, or leaves the list as it was.
    pub fn push(&mut self, item: Import) -> Result<(), Memory>
        ensures pushed { OnOk result (self.new ≡ self.old ++ item ∷ []) }
        ensures unchanged { OnErr result (self.new ≡ self.old) }
    {
        self.items.push(item).map_err(|_| Memory)
    }
}

/// The declarations of a module.
#[derive(Drop)]
pub struct Decls {
    items: Vec<Decl>,
}

impl Model for Decls {
    ghost use Rattle.std.specs.Prelude.{List};
    ghost use Rattle.bdl_parser.specs.declared.trees.Decl.{Decl};
    ghost use Rattle.bdl_parser.specs.DeclCode.{decls_code};

    ghost Value = { List Decl };

    ghost coded = { decls_code };

    ghost view = { λ list. list.items.items };
}

impl Decls {
    /// The empty list, without memory.
    pub fn new(alloc: Global) -> Decls
        ensures { result ≡ [] }
    {
        Decls {
            items: Vec::new(alloc),
        }
    }

    /// How many there are.
    pub fn len(&self) -> usize
        ensures { result ≡ length self.now }
    {
        self.items.len()
    }

    /// Whether there are none.
    pub fn is_empty(&self) -> bool
        ensures { IsTrue result ↔ (length self.now ≡ 0) }
    {
        self.items.is_empty()
    }

    /// The list as a slice.
    pub fn as_slice(&self) -> &[Decl]
        ensures { result.now ≡ self.now }
    {
        self.items.as_slice()
    }

    /// The one with this number, from 0 on.
    pub fn get(&self, at: usize) -> Option<&Decl>
        ensures { option_copied result ≡ slice_get self.now at }
    {
        self.items.get(at)
    }

    /// Adds one at the end, or leaves the list as it was.
    pub fn push(&mut self, item: Decl) -> Result<(), Memory>
        ensures pushed { OnOk result (self.new ≡ self.old ++ item ∷ []) }
        ensures unchanged { OnErr result (self.new ≡ self.old) }
    {
        self.items.push(item).map_err(|_| Memory)
    }
}

/// The fields of a bag. Contracts see the tree of each.
#[derive(Drop)]
pub struct BagFields {
    items: Vec<BagField>,
}

impl Model for BagFields {
    ghost use Rattle.std.specs.Prelude.{List, map};
    ghost use Rattle.bdl_parser.specs.Trees.{BagFieldTree};
    ghost use Rattle.bdl_parser.specs.TreeCode.{bag_fields_code};

    ghost Value = { List BagFieldTree };

    ghost coded = { bag_fields_code };

    ghost use Rattle.bdl_parser.specs.Views.{bag_field_of};

    ghost view = { λ list. map bag_field_of list.items.items };
}

impl BagFields {
    /// The empty list, without memory.
    pub fn new(alloc: Global) -> BagFields
        ensures { result ≡ [] }
    {
        BagFields {
            items: Vec::new(alloc),
        }
    }

    /// How many there are.
    pub fn len(&self) -> usize
        ensures { result ≡ length self.now }
    {
        self.items.len()
    }

    /// Whether there are none.
    pub fn is_empty(&self) -> bool
        ensures { IsTrue result ↔ (length self.now ≡ 0) }
    {
        self.items.is_empty()
    }

    /// The list as a slice.
    pub fn as_slice(&self) -> &[BagField]
        ensures { map bag_field_of result.now ≡ self.now }
    {
        self.items.as_slice()
    }

    /// The one with this number, from 0 on.
    pub fn get(&self, at: usize) -> Option<&BagField>
        ensures { option_map (λ found. bag_field_of found.now) result ≡ slice_get self.now at }
    {
        self.items.get(at)
    }

    /// Adds one at the end, or leaves the list as it was.
    pub fn push(&mut self, item: BagField) -> Result<(), Memory>
        ensures pushed { OnOk result (self.new ≡ self.old ++ bag_field_of item ∷ []) }
        ensures unchanged { OnErr result (self.new ≡ self.old) }
    {
        self.items.push(item).map_err(|_| Memory)
    }
}

/// The fields of a struct. Contracts see the tree of each.
#[derive(Drop)]
pub struct StructFields {
    items: Vec<StructField>,
}

impl Model for StructFields {
    ghost use Rattle.std.specs.Prelude.{List, map};
    ghost use Rattle.bdl_parser.specs.Trees.{StructFieldTree};
    ghost use Rattle.bdl_parser.specs.TreeCode.{struct_fields_code};

    ghost Value = { List StructFieldTree };

    ghost coded = { struct_fields_code };

    ghost use Rattle.bdl_parser.specs.Views.{struct_field_of};

    ghost view = { λ list. map struct_field_of list.items.items };
}

impl StructFields {
    /// The empty list, without memory.
    pub fn new(alloc: Global) -> StructFields
        ensures { result ≡ [] }
    {
        StructFields {
            items: Vec::new(alloc),
        }
    }

    /// How many there are.
    pub fn len(&self) -> usize
        ensures { result ≡ length self.now }
    {
        self.items.len()
    }

    /// Whether there are none.
    pub fn is_empty(&self) -> bool
        ensures { IsTrue result ↔ (length self.now ≡ 0) }
    {
        self.items.is_empty()
    }

    /// The list as a slice.
    pub fn as_slice(&self) -> &[StructField]
        ensures { map struct_field_of result.now ≡ self.now }
    {
        self.items.as_slice()
    }

    /// The one with this number, from 0 on.
    pub fn get(&self, at: usize) -> Option<&StructField>
        ensures { option_map (λ found. struct_field_of found.now) result ≡ slice_get self.now at }
    {
        self.items.get(at)
    }

    /// Adds one at the end, or leaves the list as it was.
    pub fn push(&mut self, item: StructField) -> Result<(), Memory>
        ensures pushed { OnOk result (self.new ≡ self.old ++ struct_field_of item ∷ []) }
        ensures unchanged { OnErr result (self.new ≡ self.old) }
    {
        self.items.push(item).map_err(|_| Memory)
    }
}
