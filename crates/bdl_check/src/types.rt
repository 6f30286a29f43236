//! The checks of a type.

ghost use Rattle.std.specs.Prelude.{◌≡◌};
ghost use Rattle.std.specs.Option.{option_map};
ghost use Rattle.bdl_check.specs.Faults.{first};
ghost use Rattle.bdl_load.specs.Faults.{found};
ghost use Rattle.bdl_check.specs.Declarations.{kind_named};
ghost use Rattle.bdl_check.specs.Types.{is_scalar, is_floating, is_unknown, names_struct, is_bad_key, is_bad_struct_field, node_faults_at, node_faults, type_faults};
ghost use Rattle.bdl_parser.specs.declared.trees.Spot.{Spot};
ghost use Rattle.bdl_parser.specs.Views.{tree_of};

use crate::declarations::{DeclKind, Declarations};
use bdl_load::{DefCode, Finding};
use bdl_parser::{TypeForm, TypeNode};

/// Where a type is.
#[derive(Clone, Copy, Debug, PartialEq, Eq)]
pub(crate) enum Role {
    /// The whole type of a bag's field.
    BagField,
    /// The whole type of a struct's field.
    StructField,
    /// The element of a `set` or of a `greatest`.
    Element,
    /// The keys of a map.
    Key,
    /// The values of a map.
    MapValue,
}

fn is_scalar_word(node: &TypeNode) -> bool
    ensures { result ≡ is_scalar (tree_of node.now) }
{
    matches!(node.form, TypeForm::Scalar(_))
}

fn is_floating_word(node: &TypeNode) -> bool
    ensures { result ≡ is_floating (tree_of node.now) }
{
    matches!(node.form, TypeForm::Float | TypeForm::Double)
}

fn is_unknown_name(declarations: &Declarations, node: &TypeNode) -> bool
    ensures { result ≡ is_unknown (kind_named declarations.now) (tree_of node.now) }
{
    match &node.form {
        TypeForm::Name(name) => declarations.kind(name.as_str()).is_none(),
        _ => false,
    }
}

fn is_struct_name(declarations: &Declarations, node: &TypeNode) -> bool
    ensures { result ≡ names_struct (kind_named declarations.now) (tree_of node.now) }
{
    match &node.form {
        TypeForm::Name(name) => matches!(declarations.kind(name.as_str()), Some(DeclKind::Struct)),
        _ => false,
    }
}

fn is_no_key(declarations: &Declarations, role: Role, node: &TypeNode) -> bool
    ensures { result ≡ is_bad_key (kind_named declarations.now) role (tree_of node.now) }
{
    match role {
        Role::Element => !(is_scalar_word(node) || is_struct_name(declarations, node)),
        Role::Key => !is_scalar_word(node),
        _ => false,
    }
}

fn is_no_struct_field(role: Role, node: &TypeNode) -> bool
    ensures { result ≡ is_bad_struct_field role (tree_of node.now) }
{
    matches!(role, Role::StructField) && !is_scalar_word(node)
}

/// Why a node is refused, as the first of the codes that apply.
#[tactic(auto, using(crate::proofs::Firsts::first_when))]
fn node_code(declarations: &Declarations, role: Role, node: &TypeNode) -> Option<DefCode>
    ensures { (spot : Spot) → option_map (λ code. found spot code) result
        ≡ first (node_faults_at spot (kind_named declarations.now) role (tree_of node.now)) }
{
    if is_floating_word(node) {
        return Some(DefCode::FloatingType);
    }
    if is_unknown_name(declarations, node) {
        return Some(DefCode::UnknownName);
    }
    if is_no_key(declarations, role, node) {
        return Some(DefCode::BadKeyType);
    }
    if is_no_struct_field(role, node) {
        return Some(DefCode::BadStructField);
    }
    None
}

/// The first fault of one node.
fn node_fault(declarations: &Declarations, role: Role, node: &TypeNode) -> Option<Finding>
    ensures { result ≡ first (node_faults (kind_named declarations.now) role (tree_of node.now)) }
{
    let code = node_code(declarations, role, node)?;
    Some(Finding { at: node.at, code })
}

/// The first fault of a type: its node, and then what is inside it from left to right.
pub(crate) fn type_fault(
    declarations: &Declarations,
    role: Role,
    node: &TypeNode,
) -> Option<Finding>
    ensures { result ≡ first (type_faults (kind_named declarations.now) role (tree_of node.now)) }
{
    if let Some(fault) = node_fault(declarations, role, node) {
        return Some(fault);
    }
    match &node.form {
        TypeForm::Set(element) | TypeForm::Greatest(element) => {
            type_fault(declarations, Role::Element, element)
        }
        TypeForm::Map(key, value) => {
            if let Some(fault) = type_fault(declarations, Role::Key, key) {
                return Some(fault);
            }
            type_fault(declarations, Role::MapValue, value)
        }
        _ => None,
    }
}
