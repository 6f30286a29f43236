//! Rows.

use crate::faults::{Reason, RowFault};
use crate::fields::Field;

/// A row: the fields that it shares with others of its file, and then its own.
#[derive(Clone, Copy)]
pub struct Row<'a> {
    /// The number of the line that it begins at.
    pub line: usize,
    pub shared: &'a [Field<'a>],
    pub own: &'a [Field<'a>],
}

/// The last field of this name.
fn last_named<'a>(fields: &'a [Field<'a>], name: &str) -> Option<&'a Field<'a>> {
    fields.iter().rfind(|field| field.name() == name)
}

impl<'a> Row<'a> {
    /// The last field of this name.
    pub fn field(&self, name: &str) -> Option<&'a Field<'a>> {
        last_named(self.own, name).or_else(|| last_named(self.shared, name))
    }

    /// Whether there is a field of this name.
    pub fn has(&self, name: &str) -> bool {
        self.field(name).is_some()
    }

    /// The value of the last field of this name; nothing where there is none.
    pub fn value(&self, name: &str) -> &'a [u8] {
        match self.field(name) {
            Some(field) => field.value(),
            None => &[],
        }
    }

    /// The last field of this name, which must be there.
    pub fn needed(&self, name: &'static str) -> Result<&'a Field<'a>, RowFault> {
        self.field(name)
            .ok_or(RowFault::At(self.line, Reason::Lacks(name)))
    }

    /// The number of the last field of this name, or another one where there is none.
    pub fn number_or(&self, name: &str, other: u64) -> Result<u64, RowFault> {
        match self.field(name) {
            Some(field) => field.number(),
            None => Ok(other),
        }
    }

    /// Sees that each field has one of these names, the shared ones too, and that none of its own
    /// is there twice except those that may be there more than once.
    pub fn check_names(&self, once: &[&str], often: &[&str]) -> Result<(), RowFault> {
        check_names(self.shared, once, often)?;
        check_names(self.own, once, often)?;
        check_once(self.own, often)
    }
}

/// Whether the field has one of these names.
fn is_named(field: &Field<'_>, names: &[&str]) -> bool {
    names.iter().any(|name| *name == field.name())
}

/// Sees that each of these fields has a name of one list or of the other.
fn check_names(fields: &[Field<'_>], once: &[&str], often: &[&str]) -> Result<(), RowFault> {
    for field in fields {
        if !is_named(field, once) && !is_named(field, often) {
            return Err(field.fault(Reason::Unknown));
        }
    }
    Ok(())
}

/// Sees that each of these fields is the last of its name, except those of these names.
fn check_once<'a>(fields: &'a [Field<'a>], often: &[&str]) -> Result<(), RowFault> {
    for field in fields {
        let is_last = last_named(fields, field.name()).is_some_and(|last| last.line()
            == field.line());
        if !is_last && !is_named(field, often) {
            return Err(field.fault(Reason::Twice));
        }
    }
    Ok(())
}
