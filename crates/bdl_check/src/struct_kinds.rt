//! The kinds of the fields of each struct. They are listed once, before bags are laid out: all
//! shapes that name a struct share its list, so that a layout takes no memory for them, however
//! often a definition names the struct.

ghost use Rattle.std.specs.Prelude.{◌≡◌, Some, IfOk, true};
ghost use Rattle.std.specs.Option.{is_some, option_map};
ghost use Rattle.bdl_check.specs.Declarations.{decl_named};
ghost use Rattle.bdl_check.specs.DeclarationViews.{placed_of};
ghost use Rattle.bdl_check.specs.Layouts.{struct_words, words_of_decl, kind_of_decl};
ghost use Rattle.scalar_types.specs.KindViews.{kind_of};

use crate::declarations::{Declaration, Declarations};
use bdl_parser::{Decl, StructFields, TypeForm};
use outside::Memory;
use scalar_types::{KindList, ScalarKind};
use std::alloc::Global;
use std::marker::Model;

/// A declaration, and the kinds of its fields where it is a struct. A bag has none.
#[derive(Clone, Copy)]
pub(crate) struct WithKinds<'a> {
    pub declaration: Declaration<'a>,
    pub kinds: &'a KindList,
    ghost kinds_are: { kinds.now ≡ words_of_decl declaration.decl.now },
}

/// The declarations in order, and beside each the kinds of its fields. Contracts see the
/// declarations.
#[derive(Drop)]
pub(crate) struct StructKinds<'a, 'b> {
    declarations: &'a Declarations<'b>,
    kinds: Vec<KindList>,
}

impl<'a, 'b> Model for StructKinds<'a, 'b> {
    ghost use Rattle.std.specs.Prelude.{◌≡◌, List, map};
    ghost use Rattle.bdl_check.specs.Declarations.{Placed};
    ghost use Rattle.bdl_check.specs.DeclarationCode.{placed_list_code};

    ghost Value = { List Placed };

    ghost coded = { placed_list_code };

    ghost use Rattle.bdl_check.specs.Layouts.{words_of_decl};

    ghost view = { λ all. all.declarations.now };

    ghost invariant = { λ all.
        all.kinds.items ≡ map (λ d. words_of_decl d.decl) all.declarations.now };
}

impl<'a, 'b> StructKinds<'a, 'b> {
    /// Lists the kinds of all structs, whether a layout names them or not.
    pub(crate) fn of(
        alloc: Global,
        declarations: &'a Declarations<'b>,
    ) -> Result<StructKinds<'a, 'b>, Memory>
        ensures { IfOk result (λ all. all ≡ declarations.now) }
    {
        let mut kinds = Vec::with_capacity(alloc, declarations.len())?;
        for declaration in declarations.as_slice() {
            kinds.push(field_kinds(alloc, declaration.decl)?)?;
        }
        Ok(StructKinds {
            declarations,
            kinds,
        })
    }

    /// The one of this name.
    pub(crate) fn find(&self, name: &str) -> Option<WithKinds<'_>>
        ensures { option_map (λ found. placed_of found.declaration) result
            ≡ decl_named self.now name.now }
    {
        let number = self.declarations.number(name)?;
        let declaration = self.declarations.get(number)?;
        Some(WithKinds {
            declaration,
            kinds: &self.kinds[number],
        })
    }
}

impl<'a> WithKinds<'a> {
    /// The kind of scalars that a struct is, which shares the list of its kinds.
    pub(crate) fn kind(&self) -> Result<ScalarKind, Memory>
        requires { is_some (kind_of_decl self.now.declaration.decl.now) ≡ true }
        ensures { IfOk result (λ kind.
            kind_of_decl self.now.declaration.decl.now ≡ Some (kind_of kind)) }
    {
        Ok(ScalarKind::Packed(self.kinds.copy()?))
    }
}

/// The kinds of the fields of a declaration.
fn field_kinds(alloc: Global, decl: &Decl) -> Result<KindList, Memory>
    ensures { IfOk result (λ kinds. kinds ≡ words_of_decl decl.now) }
{
    match decl {
        Decl::Struct { fields, .. } => struct_kinds(alloc, fields),
        Decl::Bag { .. } => Ok(KindList::new(alloc)),
    }
}

/// The kinds of a struct's fields in the order of the text.
fn struct_kinds(alloc: Global, fields: &StructFields) -> Result<KindList, Memory>
    ensures { IfOk result (λ kinds. kinds ≡ struct_words fields.now) }
{
    let mut kinds = KindList::new(alloc);
    for field in fields.as_slice() {
        if let TypeForm::Scalar(word) = &field.kind.form {
            kinds.push(*word)?;
        }
    }
    kinds.shared()
}
