//! Kinds and scalars from texts.

ghost use Rattle.std.specs.Prelude.{IfOk};
ghost use Rattle.bag_model.specs.Tables.{IsScalarKind};
ghost use Rattle.scalar_types.specs.KindViews.{kind_of};

use crate::faults::RunFault;
use bag_value::Val;
use field_table::Shape;
use field_writes::read_write;
use row_files::{Field, Reason};
use scalar_types::{KindList, Scalar, ScalarKind, ScalarWord};
use std::alloc::Global;
use wire_bytes::Form;

/// The scalar word that a text is.
fn word_named(field: &Field<'_>, text: &str) -> Result<ScalarWord, RunFault> {
    match ScalarWord::of_bytes(text.as_bytes()) {
        Some(word) => Ok(word),
        None => Err(RunFault::Row(field.fault(Reason::Word))),
    }
}

/// The kind of structs of these words, with commas between them.
fn struct_kind(alloc: Global, field: &Field<'_>, words: &str) -> Result<ScalarKind, RunFault>
    ensures { IfOk result (λ kind. IsScalarKind (kind_of kind)) }
{
    let mut list = KindList::new(alloc);
    for word in words.split(',') {
        list.push(word_named(field, word)?)?;
    }
    if list.is_empty() {
        return Err(RunFault::Row(field.fault(Reason::Word)));
    }
    Ok(ScalarKind::Packed(list))
}

/// The kind that a field says: a word, or some in parentheses.
pub fn kind_named(alloc: Global, field: &Field<'_>) -> Result<ScalarKind, RunFault>
    ensures { IfOk result (λ kind. IsScalarKind (kind_of kind)) }
{
    let text = field.text()?;
    match text.strip_prefix("(") {
        Some(words) => struct_kind(alloc, field, words.strip_suffix(")").unwrap_or(words)),
        None => Ok(ScalarKind::One(word_named(field, text)?)),
    }
}

/// The scalar of a kind that a field says.
pub fn scalar_of(alloc: Global, kind: &ScalarKind, field: &Field<'_>) -> Result<Scalar, RunFault>
    requires { IsScalarKind (kind_of kind.now) }
{
    let kind = kind.copy()?;
    let shape = Shape::Scalar(kind);
    match read_write(alloc, Form::Two, &shape, field.value())? {
        Some(Val::Scalar(Some(scalar))) => Ok(scalar),
        _ => Err(RunFault::Row(field.fault(Reason::Word))),
    }
}
