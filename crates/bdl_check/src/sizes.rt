//! The levels of headers and the number of fields of each bag, without laying it out.

ghost use Rattle.std.specs.Prelude.{◌≡◌, ◌+◌, ◌==◌, [], min, max, length, true, IfOk};
ghost use Rattle.std.specs.List.{flat_map, list_all};
ghost use Rattle.bdl_check.specs.Checks.{placed_faults};
ghost use Rattle.bdl_check.specs.Declarations.{kind_named};
ghost use Rattle.bdl_check.specs.Fields.{numbers_of};
ghost use Rattle.bdl_check.specs.Passes.{are_distinct, passes_type, passes_decl};
ghost use Rattle.bdl_check.specs.declared.sizes.TheConstants.{LEVELS_CAP, FIELDS_CAP};
ghost use Rattle.bdl_check.specs.declared.types.Role.TheVariants.{BagField};
ghost use Rattle.bdl_check.specs.Recursion.{links, names_in, uses};
ghost use Rattle.bdl_check.specs.Sizes.{HasTypeSize, HasSize, IsSizeOf, IsExcess, AreKnown, AreSizes};
ghost use Rattle.bdl_parser.specs.Views.{tree_of};
ghost use Rattle.topological_order.specs.Orders.{IsOrder};

use crate::declarations::Declarations;
use bag_model::{FIELDS_MAX, LEVELS_MAX};
use bdl_load::DefCode;
use bdl_parser::{BagFields, Decl, TypeForm, TypeNode};
use outside::Memory;
use std::alloc::Global;

/// Levels are counted up to one more than the most.
const LEVELS_CAP: usize = LEVELS_MAX + 1;

/// Fields are counted up to one more than the most.
const FIELDS_CAP: usize = FIELDS_MAX + 1;

/// The levels of headers that the fields of a bag take, at most `LEVELS_CAP`, and the fields with
/// those inside them, at most `FIELDS_CAP`.
#[derive(Clone, Copy, Debug, PartialEq, Eq)]
pub(crate) struct Size {
    pub levels: usize,
    pub fields: usize,
}

/// The size of a bag with no field.
const EMPTY: Size = Size {
    levels: 0,
    fields: 0,
};

/// The size of a bag with one field more, under which there is that size.
fn with_field(bag: Size, under: Size) -> Size
    ensures levels { result.levels ≡ min (max (1 + under.levels) bag.levels) LEVELS_CAP }
    ensures fields { result.fields ≡ min (1 + under.fields + bag.fields) FIELDS_CAP }
{
    Size {
        levels: under
            .levels
            .saturating_add(1)
            .max(bag.levels)
            .min(LEVELS_CAP),
        fields: under
            .fields
            .saturating_add(1)
            .saturating_add(bag.fields)
            .min(FIELDS_CAP),
    }
}

/// The size under a map or a counter, whose keys take a level.
fn with_keys(under: Size) -> Size
    ensures levels { result.levels ≡ min (1 + under.levels) LEVELS_CAP }
    ensures fields { result.fields ≡ under.fields }
{
    Size {
        levels: under.levels.saturating_add(1).min(LEVELS_CAP),
        fields: under.fields,
    }
}

/// The levels under a field of this type, and the fields inside it.
fn type_size(declarations: &Declarations, sizes: &[Size], node: &TypeNode) -> Size
    requires count { length sizes.now ≡ length declarations.now }
    requires known { AreKnown declarations.now sizes.now (names_in (tree_of node.now)) }
    requires passes { passes_type (kind_named declarations.now) BagField (tree_of node.now) ≡ true }
    ensures { HasTypeSize declarations.now (tree_of node.now) result }
{
    match &node.form {
        TypeForm::Scalar(_) | TypeForm::Taint | TypeForm::Set(_) | TypeForm::Greatest(_) => EMPTY,
        TypeForm::Counter => with_keys(EMPTY),
        TypeForm::Map(_, value) => with_keys(type_size(declarations, sizes, value)),
        TypeForm::Name(name) => {
            let number = declarations.number(name.as_str()).unwrap();
            sizes[number]
        }
        TypeForm::Float | TypeForm::Double => unreachable!(),
    }
}

/// The size of a bag with these fields.
fn bag_size(declarations: &Declarations, sizes: &[Size], fields: &BagFields) -> Size
    requires count { length sizes.now ≡ length declarations.now }
    requires known { AreKnown declarations.now sizes.now
        (flat_map (λ field. names_in field.kind) fields.now) }
    requires types { list_all
        (λ field. passes_type (kind_named declarations.now) BagField field.kind) fields.now ≡ true }
    requires numbers { are_distinct (λ a b. a == b) (numbers_of fields.now) ≡ true }
    ensures { HasSize declarations.now fields.now result }
{
    let mut size = EMPTY;
    for field in fields.as_slice() {
        size = with_field(size, type_size(declarations, sizes, &field.kind));
    }
    size
}

/// The size of a declaration.
fn decl_size(declarations: &Declarations, sizes: &[Size], decl: &Decl) -> Size
    requires count { length sizes.now ≡ length declarations.now }
    requires known { AreKnown declarations.now sizes.now (uses decl.now) }
    requires passes { passes_decl (kind_named declarations.now) decl.now ≡ true }
    ensures { IsSizeOf declarations.now decl.now result }
{
    match decl {
        Decl::Bag { fields, .. } => bag_size(declarations, sizes, fields),
        Decl::Struct { .. } => EMPTY,
    }
}

/// The size of each declaration, in the order of their numbers. Each is looked at once, in an order
/// in which it is after those that it names.
pub(crate) fn sizes_of(
    alloc: Global,
    declarations: &Declarations,
    order: &[usize],
) -> Result<Vec<Size>, Memory>
    requires sound { placed_faults declarations.now ≡ [] }
    requires order { IsOrder (links declarations.now) order.now }
    ensures { IfOk result (λ sizes. AreSizes declarations.now sizes.items) }
{
    let mut sizes = vec![in alloc; EMPTY; declarations.len()]?;
    for number in order {
        if let Some(declaration) = declarations.get(*number) {
            sizes[*number] = decl_size(declarations, &sizes, declaration.decl);
        }
    }
    Ok(sizes)
}

/// What is wrong with a bag of this size, if anything is.
pub(crate) fn excess(size: Size) -> Option<DefCode>
    ensures { IsExcess size result }
{
    if size.levels > LEVELS_MAX {
        return Some(DefCode::TooDeep);
    }
    if size.fields > FIELDS_MAX {
        return Some(DefCode::TooManySlots);
    }
    None
}
