//! What the fields of a row say.

ghost use Rattle.std.specs.Prelude.{◌≤◌, IfOk, length};
ghost use Rattle.context_model.specs.Framing.{least_budget};

use atom_list::{AtomList, Builder, Context};
use outside::{ATOM_MAX, Memory};
use row_files::{Field, Reason, Row, RowFault};
use std::alloc::Global;
use wire_bytes::Form;

/// Adds an atom to a list that is made.
fn add_atom(atom: &[u8], built: &mut Builder) -> Result<(), Memory>
    requires { length atom.now ≤ ATOM_MAX }
{
    built.reserve(atom.len() + 3, 1)?;
    built.push(atom);
    Ok(())
}

/// Adds the atom that a word of this field says.
fn add_word(
    alloc: Global,
    field: &Field<'_>,
    word: &str,
    built: &mut Builder,
) -> Result<(), RowFault> {
    let atom = field.bytes_said(alloc, word.as_bytes())?;
    if ATOM_MAX < atom.len() {
        return Err(field.fault(Reason::Word));
    }
    Ok(add_atom(&atom, built)?)
}

/// The list of the atoms that a field says.
pub fn list_of(alloc: Global, field: &Field<'_>) -> Result<AtomList, RowFault> {
    let mut built = Builder::with_room(alloc, 0, 0)?;
    for word in field.text()?.split_whitespace() {
        add_word(alloc, field, word, &mut built)?;
    }
    Ok(built.finish()?)
}

/// The list of the atoms that the field of this name says.
pub fn list_named(alloc: Global, row: Row<'_>, name: &'static str) -> Result<AtomList, RowFault> {
    list_of(alloc, row.needed(name)?)
}

/// The context of the atoms that a field says.
pub fn context_of(alloc: Global, field: &Field<'_>) -> Result<Context, RowFault> {
    match Context::check(list_of(alloc, field)?) {
        Ok(context) => Ok(context),
        Err(_) => Err(field.fault(Reason::Word)),
    }
}

/// The context of the atoms that the field of this name says.
pub fn context_named(alloc: Global, row: Row<'_>, name: &'static str) -> Result<Context, RowFault> {
    context_of(alloc, row.needed(name)?)
}

/// The numbers that the field of this name says, with blanks between them.
pub fn numbers_named(
    alloc: Global,
    row: Row<'_>,
    name: &'static str,
) -> Result<Vec<u64>, RowFault> {
    let field = row.needed(name)?;
    let mut numbers = Vec::new(alloc);
    for word in field.text()?.split_whitespace() {
        let Ok(number) = word.parse::<u64>() else {
            return Err(field.fault(Reason::Number));
        };
        numbers.push(number)?;
    }
    Ok(numbers)
}

/// The form that the row asks for.
pub fn form_of(row: Row<'_>) -> Result<Form, RowFault> {
    let field = row.needed("form")?;
    match field.text()? {
        "one" => Ok(Form::One),
        "two" => Ok(Form::Two),
        _ => Err(field.fault(Reason::Word)),
    }
}

/// The budget of this name; the greatest where the row has none. It can't be below the form's least
/// one.
pub fn budget_named(row: Row<'_>, name: &'static str, form: Form) -> Result<u64, RowFault>
    ensures { IfOk result (λ budget. least_budget form ≤ budget) }
{
    let budget = row.number_or(name, u64::MAX)?;
    if budget < form.least_budget() {
        return Err(row.needed(name)?.fault(Reason::Number));
    }
    Ok(budget)
}
