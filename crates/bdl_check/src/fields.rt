//! The checks of a declaration's fields.

ghost use Rattle.std.specs.Prelude.{◌≡◌, ◌++◌, ◌∷◌, ◌==◌, ◌||◌, [], ℕ, List, None, not, IfOk, OnOk};
ghost use Rattle.std.specs.Str.{bytes_eq};
ghost use Rattle.bdl_check.specs.Faults.{first};
ghost use Rattle.bdl_check.specs.Fields.{numbers_of, bag_field_names, struct_names_of, bag_field_faults, bag_faults, struct_field_faults, struct_faults, decl_faults};
ghost use Rattle.bdl_check.specs.Declarations.{kind_named};
ghost use Rattle.bdl_check.specs.Lookups.{has_number, has_text, HasNumbers, HasTexts};
ghost use Rattle.bdl_parser.specs.Trees.{BagFieldTree, StructFieldTree};
ghost use Rattle.bdl_parser.specs.Views.{bag_field_of, struct_field_of};

use crate::declarations::Declarations;
use crate::types::{Role, type_fault};
use bdl_load::{DefCode, Finding};
use bdl_parser::{BagField, BagFields, Decl, StructField, StructFields};
use outside::Memory;
use std::alloc::Global;
use std::collections::BTreeSet;

/// Adds a number, and answers whether it is new.
fn add_number(numbers: &mut BTreeSet<u16>, number: u16) -> Result<bool, Memory>
    ensures new { IfOk result (λ is_new. is_new ≡ not (has_number numbers.old number)) }
    ensures added { OnOk result ((other : ℕ)
        → has_number numbers.new other ≡ ((number == other) || has_number numbers.old other)) }
{
    Ok(numbers.insert(number)?)
}

/// Adds a text, and answers whether it is new.
fn add_text<'a>(texts: &mut BTreeSet<&'a str>, text: &'a str) -> Result<bool, Memory>
    ensures new { IfOk result (λ is_new. is_new ≡ not (has_text texts.old text.now)) }
    ensures added { OnOk result ((other : List ℕ)
        → has_text texts.new other ≡ (bytes_eq text.now other || has_text texts.old other)) }
{
    Ok(texts.insert(text)?)
}

/// The first fault of a bag's field, after the fields with these numbers and these names.
fn bag_field_fault<'a>(
    declarations: &Declarations,
    numbers: &mut BTreeSet<u16>,
    texts: &mut BTreeSet<&'a str>,
    field: &'a BagField,
) -> Result<Option<Finding>, Memory>
    ensures found { (earlier : List BagFieldTree) → HasNumbers numbers.old (numbers_of earlier)
        → HasTexts texts.old (bag_field_names earlier) →
        IfOk result (λ fault. fault ≡ first
        (bag_field_faults (kind_named declarations.now) earlier (bag_field_of field.now))) }
    ensures numbers { (earlier : List BagFieldTree) → HasNumbers numbers.old (numbers_of earlier)
        → result ≡ Ok None →
        HasNumbers numbers.new (numbers_of (earlier ++ bag_field_of field.now ∷ [])) }
    ensures texts { (earlier : List BagFieldTree) → HasTexts texts.old (bag_field_names earlier)
        → result ≡ Ok None →
        HasTexts texts.new (bag_field_names (earlier ++ bag_field_of field.now ∷ [])) }
{
    if let Some(fault) = type_fault(declarations, Role::BagField, &field.kind) {
        return Ok(Some(fault));
    }
    if !add_number(numbers, field.number)? {
        return Ok(Some(Finding {
            at: field.number_at,
            code: DefCode::DuplicateNumber,
        }));
    }
    if !add_text(texts, field.name.as_str())? {
        return Ok(Some(Finding {
            at: field.name_at,
            code: DefCode::DuplicateField,
        }));
    }
    Ok(None)
}

/// The first fault of a bag's fields.
fn bag_fault(
    alloc: Global,
    declarations: &Declarations,
    fields: &BagFields,
) -> Result<Option<Finding>, Memory>
    ensures { IfOk result (λ fault.
        fault ≡ first (bag_faults (kind_named declarations.now) [] fields.now)) }
{
    let mut numbers = BTreeSet::new(alloc);
    let mut texts = BTreeSet::new(alloc);
    for field in fields.as_slice() {
        if let Some(fault) = bag_field_fault(declarations, &mut numbers, &mut texts, field)? {
            return Ok(Some(fault));
        }
    }
    Ok(None)
}

/// The first fault of a struct's field, after the fields with these names.
fn struct_field_fault<'a>(
    declarations: &Declarations,
    texts: &mut BTreeSet<&'a str>,
    field: &'a StructField,
) -> Result<Option<Finding>, Memory>
    ensures found { (earlier : List StructFieldTree)
        → HasTexts texts.old (struct_names_of earlier) →
        IfOk result (λ fault. fault ≡ first
        (struct_field_faults (kind_named declarations.now) earlier (struct_field_of field.now))) }
    ensures texts { (earlier : List StructFieldTree) → HasTexts texts.old (struct_names_of earlier)
        → result ≡ Ok None →
        HasTexts texts.new (struct_names_of (earlier ++ struct_field_of field.now ∷ [])) }
{
    if let Some(fault) = type_fault(declarations, Role::StructField, &field.kind) {
        return Ok(Some(fault));
    }
    if !add_text(texts, field.name.as_str())? {
        return Ok(Some(Finding {
            at: field.name_at,
            code: DefCode::DuplicateField,
        }));
    }
    Ok(None)
}

/// The first fault of a struct's fields.
fn struct_fault(
    alloc: Global,
    declarations: &Declarations,
    fields: &StructFields,
) -> Result<Option<Finding>, Memory>
    ensures { IfOk result (λ fault.
        fault ≡ first (struct_faults (kind_named declarations.now) [] fields.now)) }
{
    let mut texts = BTreeSet::new(alloc);
    for field in fields.as_slice() {
        if let Some(fault) = struct_field_fault(declarations, &mut texts, field)? {
            return Ok(Some(fault));
        }
    }
    Ok(None)
}

/// The first fault of a declaration, its name aside.
pub(crate) fn decl_fault(
    alloc: Global,
    declarations: &Declarations,
    decl: &Decl,
) -> Result<Option<Finding>, Memory>
    ensures { IfOk result (λ fault.
        fault ≡ first (decl_faults (kind_named declarations.now) decl.now)) }
{
    match decl {
        Decl::Bag { fields, .. } => bag_fault(alloc, declarations, fields),
        Decl::Struct { at, fields, .. } => {
            if fields.is_empty() {
                return Ok(Some(Finding {
                    at: *at,
                    code: DefCode::EmptyStruct,
                }));
            }
            struct_fault(alloc, declarations, fields)
        }
    }
}
