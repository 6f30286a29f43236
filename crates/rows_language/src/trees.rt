//! Modules as texts: each part with its place.

use bdl_parser::{BagField, Decl, Module, StructField, TypeForm, TypeNode};
use row_files::RowFault;
use std::alloc::Global;
use std::fmt::Write;

/// What the text of a type begins with, but that of a scalar.
fn word_of(form: &TypeForm) -> &str {
    match form {
        TypeForm::Scalar(_) => "",
        TypeForm::Float => "Float",
        TypeForm::Double => "Double",
        TypeForm::Taint => "Taint",
        TypeForm::Counter => "Counter",
        TypeForm::Set(_) => "set<",
        TypeForm::Greatest(_) => "greatest<",
        TypeForm::Map(_, _) => "map<",
        TypeForm::Name(name) => name.as_str(),
    }
}

/// Appends a type with its place and those of the types inside it.
fn put_type(node: &TypeNode, text: &mut String) -> Result<(), RowFault> {
    let word = word_of(&node.form);
    write!(text, "{}:{} {word}", node.at.line, node.at.column)?;
    match &node.form {
        TypeForm::Scalar(word) => write!(text, "{word:?}")?,
        TypeForm::Set(element) | TypeForm::Greatest(element) => {
            put_type(element, text)?;
            text.push('>')?;
        }
        TypeForm::Map(key, value) => {
            put_type(key, text)?;
            text.push_str(", ")?;
            put_type(value, text)?;
            text.push('>')?;
        }
        _ => {}
    }
    Ok(())
}

/// Appends a line for the field of a bag, with its places.
fn put_bag_field(field: &BagField, text: &mut String) -> Result<(), RowFault> {
    text.push_str("  ")?;
    put_type(&field.kind, text)?;
    let (name, at) = (field.name.as_str(), &field.name_at);
    write!(text, " {name} {}:{}", at.line, at.column)?;
    let (number, at) = (field.number, &field.number_at);
    writeln!(text, " = {number} {}:{}", at.line, at.column)?;
    Ok(())
}

/// Appends a line for the field of a struct, with its places.
fn put_struct_field(field: &StructField, text: &mut String) -> Result<(), RowFault> {
    text.push_str("  ")?;
    put_type(&field.kind, text)?;
    let (name, at) = (field.name.as_str(), &field.name_at);
    writeln!(text, " {name} {}:{}", at.line, at.column)?;
    Ok(())
}

/// Appends a line for a bag, and one for each of its fields.
fn put_bag(
    name: &str,
    line: u32,
    column: u32,
    fields: &[BagField],
    text: &mut String,
) -> Result<(), RowFault> {
    writeln!(text, "bag {name} {line}:{column}")?;
    for field in fields {
        put_bag_field(field, text)?;
    }
    Ok(())
}

/// Appends a line for a struct, and one for each of its fields.
fn put_struct(
    name: &str,
    line: u32,
    column: u32,
    fields: &[StructField],
    text: &mut String,
) -> Result<(), RowFault> {
    writeln!(text, "struct {name} {line}:{column}")?;
    for field in fields {
        put_struct_field(field, text)?;
    }
    Ok(())
}

/// Appends a declaration.
fn put_decl(decl: &Decl, text: &mut String) -> Result<(), RowFault> {
    match decl {
        Decl::Bag { name, at, fields } => {
            put_bag(name.as_str(), at.line, at.column, fields.as_slice(), text)
        }
        Decl::Struct { name, at, fields } => {
            put_struct(name.as_str(), at.line, at.column, fields.as_slice(), text)
        }
    }
}

/// Appends a line for each import.
fn put_imports(module: &Module, text: &mut String) -> Result<(), RowFault> {
    for import in module.imports.as_slice() {
        let (file, at) = (import.file.as_str(), &import.at);
        writeln!(text, "import \"{file}\" {}:{}", at.line, at.column)?;
    }
    Ok(())
}

/// A module in lines: its imports, and its declarations with their fields.
pub fn module_text(alloc: Global, module: &Module) -> Result<String, RowFault> {
    let mut text = String::new(alloc);
    put_imports(module, &mut text)?;
    for decl in module.decls.as_slice() {
        put_decl(decl, &mut text)?;
    }
    Ok(text)
}
