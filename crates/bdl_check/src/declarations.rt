//! The declarations of all files, by number and by name.

ghost use Rattle.std.specs.Prelude.{◌≡◌, ◌++◌, [], ◌∷◌, length, map, not, slice_get, IfOk, OnOk, Ok, true, false};
ghost use Rattle.std.specs.Option.{is_some, option_map};
ghost use Rattle.bdl_check.specs.Declarations.{decl_named, number_named, kind_named, placed, decl_name, decl_place, decl_kind};
ghost use Rattle.bdl_check.specs.DeclarationViews.{placed_of};

use bdl_parser::{Decl, Spot};
use outside::{Memory, Text};
use std::alloc::Global;
use std::collections::BTreeMap;
use std::marker::Model;

/// What a name was declared as.
#[derive(Clone, Copy, Debug, PartialEq, Eq)]
pub(crate) enum DeclKind {
    Bag,
    Struct,
}

/// A declaration, and the name of its file.
#[derive(Clone, Copy)]
pub(crate) struct Declaration<'a> {
    pub file: &'a Text,
    pub decl: &'a Decl,
}

/// Declarations in order, each of which is found by its number and by its name. No choice of names
/// makes a look-up slow, as it may where names are hashed.
#[derive(Drop)]
pub(crate) struct Declarations<'a> {
    all: Vec<Declaration<'a>>,
    numbers: BTreeMap<&'a str, usize>,
}

impl<'a> Model for Declarations<'a> {
    ghost use Rattle.std.specs.Prelude.{List, map};
    ghost use Rattle.bdl_check.specs.Declarations.{Placed};
    ghost use Rattle.bdl_check.specs.DeclarationCode.{placed_list_code};

    ghost Value = { List Placed };

    ghost coded = { placed_list_code };

    ghost use Rattle.bdl_check.specs.DeclarationViews.{placed_of, NumbersDeclarations};

    ghost view = { λ list. map placed_of list.all.items };

    ghost invariant = { λ list. NumbersDeclarations (map placed_of list.all.items) list.numbers };
}

impl<'a> Declarations<'a> {
    /// No declarations.
    pub(crate) fn new(alloc: Global) -> Declarations<'a>
        ensures { result ≡ [] }
    {
        Declarations {
            all: Vec::new(alloc),
            numbers: BTreeMap::new(alloc),
        }
    }

    /// How many there are.
    pub(crate) fn len(&self) -> usize
        ensures { result ≡ length self.now }
    {
        self.all.len()
    }

    /// The one with this number, from 0 on.
    pub(crate) fn get(&self, number: usize) -> Option<Declaration<'a>>
        ensures { option_map placed_of result ≡ slice_get self.now number }
    {
        self.all.get(number).copied()
    }

    /// All of them, in order.
    pub(crate) fn as_slice(&self) -> &[Declaration<'a>]
        ensures { map placed_of result.now ≡ self.now }
    {
        self.all.as_slice()
    }

    /// The number of the one of this name.
    pub(crate) fn number(&self, name: &str) -> Option<usize>
        ensures { result ≡ number_named self.now name.now }
    {
        self.numbers.get(name).copied()
    }

    /// The one of this name.
    pub(crate) fn find(&self, name: &str) -> Option<Declaration<'a>>
        ensures { option_map placed_of result ≡ decl_named self.now name.now }
    {
        let number = self.number(name)?;
        self.get(number)
    }

    /// What a name was declared as.
    pub(crate) fn kind(&self, name: &str) -> Option<DeclKind>
        ensures { result ≡ kind_named self.now name.now }
    {
        Some(decl_kind(self.find(name)?.decl))
    }

    /// Adds a declaration at the end, and answers whether its name is new. Where it isn't, nothing
    /// is added.
    pub(crate) fn declare(&mut self, file: &'a Text, decl: &'a Decl) -> Result<bool, Memory>
        ensures new { IfOk result (λ new.
            new ≡ not (is_some (decl_named self.old (decl_name decl.now)))) }
        ensures added { result ≡ Ok true → self.new ≡ self.old ++ placed file.now decl.now ∷ [] }
        ensures kept { result ≡ Ok false → self.new ≡ self.old }
    {
        let name = decl_name(decl);
        if self.number(name).is_some() {
            return Ok(false);
        }
        let number = self.all.len();
        self.all.push(Declaration { file, decl })?;
        if self.numbers.insert(name, number).is_err() {
            self.all.pop();
            return Err(Memory);
        }
        Ok(true)
    }
}

/// A declaration's name.
pub(crate) fn decl_name(decl: &Decl) -> &str
    ensures { result.now ≡ decl_name decl.now }
{
    match decl {
        Decl::Bag { name, .. } | Decl::Struct { name, .. } => name.as_str(),
    }
}

/// The place of a declaration's name.
pub(crate) fn decl_place(decl: &Decl) -> Spot
    ensures { result ≡ decl_place decl.now }
{
    match decl {
        Decl::Bag { at, .. } | Decl::Struct { at, .. } => *at,
    }
}

/// What a declaration declares.
pub(crate) fn decl_kind(decl: &Decl) -> DeclKind
    ensures { result ≡ decl_kind decl.now }
{
    match decl {
        Decl::Bag { .. } => DeclKind::Bag,
        Decl::Struct { .. } => DeclKind::Struct,
    }
}
