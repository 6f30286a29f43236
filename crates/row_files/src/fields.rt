//! The fields of an item.

use crate::faults::{Reason, RowFault};
use crate::texts::add_text;
use std::alloc::Global;
use text_lines::{HexFault, hex_bytes};

/// A field: its name, the line that it begins at, and its value, which begins with its label.
#[derive(Drop)]
pub struct Field<'a> {
    name: &'a str,
    line: usize,
    label: usize,
    value: Vec<u8>,
}

impl<'a> Field<'a> {
    /// The name.
    pub fn name(&self) -> &'a str {
        self.name
    }

    /// The number of the line that it begins at.
    pub fn line(&self) -> usize {
        self.line
    }

    /// What is on its first line.
    pub fn label(&self) -> &[u8] {
        self.value.get(..self.label).unwrap_or(&[])
    }

    /// What the lines below its first add.
    pub fn content(&self) -> &[u8] {
        self.value.get(self.label..).unwrap_or(&[])
    }

    /// All its text.
    pub fn value(&self) -> &[u8] {
        self.value.as_slice()
    }

    /// The value, to be added to.
    pub(crate) fn value_mut(&mut self) -> &mut Vec<u8> {
        &mut self.value
    }

    /// What is wrong with it.
    pub fn fault(&self, reason: Reason) -> RowFault {
        RowFault::At(self.line, reason)
    }

    /// The value as text.
    pub fn text(&self) -> Result<&str, RowFault> {
        str::from_utf8(self.value()).map_err(|_| self.fault(Reason::Utf8))
    }

    /// The label as text.
    pub fn label_text(&self) -> Result<&str, RowFault> {
        str::from_utf8(self.label()).map_err(|_| self.fault(Reason::Utf8))
    }

    /// The value as a number.
    pub fn number(&self) -> Result<u64, RowFault> {
        let text = self.text()?;
        text.parse::<u64>().map_err(|_| self.fault(Reason::Number))
    }

    /// The bytes that a text of this field says in hexadecimal digits; a dash says none.
    pub fn bytes_said(&self, alloc: Global, digits: &[u8]) -> Result<Vec<u8>, RowFault> {
        match hex_bytes(alloc, digits) {
            Ok(bytes) => Ok(bytes),
            Err(HexFault::Memory) => Err(RowFault::Memory),
            Err(_) => Err(self.fault(Reason::Word)),
        }
    }

    /// The bytes that the value says in hexadecimal digits.
    pub fn bytes(&self, alloc: Global) -> Result<Vec<u8>, RowFault> {
        self.bytes_said(alloc, self.value())
    }

    /// The value as a count.
    pub fn count(&self) -> Result<usize, RowFault> {
        usize::try_from(self.number()?).map_err(|_| self.fault(Reason::Number))
    }
}

/// Whether a field can have this name.
fn is_field_name(name: &str) -> bool {
    !name.is_empty()
        && name
            .bytes()
            .all(|byte| matches!(byte, b'a'..=b'z' | b'0'..=b'9' | b'_'))
}

/// Puts a field with this name, and with this text on its first line, after the others.
pub(crate) fn begin_field<'a>(
    alloc: Global,
    line: usize,
    name: &'a str,
    text: &str,
    fields: &mut Vec<Field<'a>>,
) -> Result<(), RowFault> {
    if !is_field_name(name) {
        return Err(RowFault::At(line, Reason::NoName));
    }
    let mut value = Vec::new(alloc);
    add_text(line, text, None, &mut value)?;
    let label = value.len();
    fields.push(Field {
        name,
        line,
        label,
        value,
    })?;
    Ok(())
}
