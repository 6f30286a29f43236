//! The fields of a bag, laid out as those of a table.

ghost use Rattle.std.specs.Prelude.{◌≡◌, ◌≤◌, Some, IfOk, map, true};
ghost use Rattle.std.specs.List.Sorted.{IsPermutation, IsNonDecreasingBy};
ghost use Rattle.std.specs.Option.{is_some};
ghost use Rattle.bag_model.specs.Shapes.{Nodes};
ghost use Rattle.bag_model.specs.Tables.{levels};
ghost use Rattle.bdl_check.specs.Layouts.{kind_in, IsShapeOfDecl, IsShapeOf, IsFieldOf, IsLaidOut, HasShapeIn, HasDeclShapeIn};
ghost use Rattle.bdl_parser.specs.Views.{tree_of, bag_field_of};
ghost use Rattle.field_table.specs.Plain.{shape_of, field_of, nodes_of, IsIndexed, IsIndexedShape, IsIndexedField};
ghost use Rattle.scalar_types.specs.KindViews.{kind_of};

use crate::struct_kinds::{StructKinds, WithKinds};
use bdl_parser::{BagField, BagFields, Decl, TypeForm, TypeNode};
use field_table::{Shape, Slot, Slots};
use outside::Memory;
use scalar_types::ScalarKind;
use std::alloc::Global;

/// The kind of scalars that the type of an element or a key is.
fn type_kind(declarations: &StructKinds, node: &TypeNode) -> Result<ScalarKind, Memory>
    requires { is_some (kind_in declarations.now (tree_of node.now)) ≡ true }
    ensures { IfOk result (λ kind.
        kind_in declarations.now (tree_of node.now) ≡ Some (kind_of kind)) }
{
    match &node.form {
        TypeForm::Scalar(word) => Ok(ScalarKind::One(*word)),
        TypeForm::Name(name) => {
            let declared = declarations.find(name.as_str()).unwrap();
            declared.kind()
        }
        _ => unreachable!(),
    }
}

/// The fields in ascending order of number.
fn sorted_fields<'a>(alloc: Global, fields: &'a BagFields) -> Result<Vec<&'a BagField>, Memory>
    ensures same { IfOk result (λ sorted. IsPermutation fields.now
        (map (λ field. bag_field_of field.now) sorted.items)) }
    ensures rising { IfOk result (λ sorted.
        IsNonDecreasingBy (λ field. field.now.number) sorted.items) }
{
    let mut sorted = Vec::with_capacity(alloc, fields.len())?;
    for field in fields.as_slice() {
        sorted.push(field)?;
    }
    sorted.sort_unstable_by_key(|field| field.number);
    Ok(sorted)
}

/// The shape of a field whose type is the name of that declaration.
#[cycle(laying)]
fn decl_shape(
    alloc: Global,
    declarations: &StructKinds,
    declared: &WithKinds,
    room: usize,
) -> Result<Shape, Memory>
    requires { HasDeclShapeIn declarations.now declared.now.declaration.decl.now room }
    ensures shape { IfOk result (λ shape. IsShapeOfDecl (IsLaidOut declarations.now)
        declared.now.declaration.decl.now (shape_of shape)) }
    ensures indexed { IfOk result IsIndexedShape }
{
    match declared.declaration.decl {
        Decl::Bag { fields, .. } => Ok(Shape::Bag(lay_out(alloc, declarations, fields, room)?)),
        Decl::Struct { .. } => Ok(Shape::Scalar(declared.kind()?)),
    }
}

/// The shape of a field of this type, whose headers take at most `room` levels under its own.
#[cycle(laying)]
fn type_shape(
    alloc: Global,
    declarations: &StructKinds,
    node: &TypeNode,
    room: usize,
) -> Result<Shape, Memory>
    requires { HasShapeIn declarations.now (tree_of node.now) room }
    ensures shape { IfOk result (λ shape. IsShapeOf declarations.now (IsLaidOut declarations.now)
        (tree_of node.now) (shape_of shape)) }
    ensures indexed { IfOk result IsIndexedShape }
{
    match &node.form {
        TypeForm::Scalar(word) => Ok(Shape::Scalar(ScalarKind::One(*word))),
        TypeForm::Taint => Ok(Shape::Taint),
        TypeForm::Counter => Ok(Shape::Counter),
        TypeForm::Name(name) => {
            let declared = declarations.find(name.as_str()).unwrap();
            decl_shape(alloc, declarations, &declared, room)
        }
        TypeForm::Set(element) => Ok(Shape::Set(type_kind(declarations, element)?)),
        TypeForm::Greatest(element) => Ok(Shape::Greatest(type_kind(declarations, element)?)),
        TypeForm::Map(key, value) => {
            let key = type_kind(declarations, key)?;
            let value = type_shape(alloc, declarations, value, room - 1)?;
            Ok(Shape::Map(key, Box::new(alloc, value)?))
        }
        TypeForm::Float | TypeForm::Double => unreachable!(),
    }
}

/// The field of a table that a field of a bag is.
#[cycle(laying)]
fn slot(
    alloc: Global,
    declarations: &StructKinds,
    field: &BagField,
    room: usize,
) -> Result<Slot, Memory>
    requires { HasShapeIn declarations.now (tree_of field.now.kind) room }
    ensures field { IfOk result (λ slot. IsFieldOf declarations.now (IsLaidOut declarations.now)
        (bag_field_of field.now) (field_of slot)) }
    ensures indexed { IfOk result IsIndexedField }
{
    let shape = type_shape(alloc, declarations, &field.kind, room)?;
    Ok(Slot {
        name: field.name.copy()?,
        number: field.number,
        shape,
    })
}

/// The fields of a bag in ascending order of number, with the bags that they name in place. The bag
/// takes at most `room` levels of headers.
#[cycle(laying)]
pub(crate) fn lay_out(
    alloc: Global,
    declarations: &StructKinds,
    fields: &BagFields,
    room: usize,
) -> Result<Slots, Memory>
    requires shallow { (nodes : Nodes) × IsLaidOut declarations.now fields.now nodes
        × (levels nodes ≤ room) }
    ensures laid_out { IfOk result (λ slots.
        IsLaidOut declarations.now fields.now (nodes_of slots)) }
    ensures indexed { IfOk result IsIndexed }
{
    let sorted = sorted_fields(alloc, fields)?;
    let mut slots = Slots::new(alloc);
    for field in &sorted {
        slots.push(slot(alloc, declarations, field, room - 1)?)?;
    }
    Ok(slots)
}
