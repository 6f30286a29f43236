//! The items of a text.

use crate::faults::{Reason, RowFault};
use crate::fields::{Field, begin_field};
use crate::texts::{add_copies, add_text};
use std::alloc::{AllocError, Global};
use std::mem;

/// A line that is neither empty nor a comment, with its number in the text, from 1.
#[derive(Clone, Copy)]
struct Line<'a> {
    number: usize,
    text: &'a str,
}

/// The lines between two empty ones, of which there is at least one.
#[derive(Drop)]
pub struct Item<'a> {
    lines: Vec<Line<'a>>,
}

/// Puts the lines after the items, and leaves none.
fn end_item<'a>(
    alloc: Global,
    lines: &mut Vec<Line<'a>>,
    items: &mut Vec<Item<'a>>,
) -> Result<(), AllocError> {
    if !lines.is_empty() {
        let lines = mem::replace(lines, Vec::new(alloc));
        items.push(Item { lines })?;
    }
    Ok(())
}

/// The items of a text.
pub fn items_of(alloc: Global, text: &str) -> Result<Vec<Item<'_>>, AllocError> {
    let mut items = Vec::new(alloc);
    let mut lines = Vec::new(alloc);
    let mut number = 0usize;
    for text in text.split('\n') {
        number = number.saturating_add(1);
        if text.is_empty() {
            end_item(alloc, &mut lines, &mut items)?;
        } else if !text.starts_with('#') {
            lines.push(Line { number, text })?;
        }
    }
    end_item(alloc, &mut lines, &mut items)?;
    Ok(items)
}

/// Adds what a line adds to the last of the fields, or begins a field.
fn add_line<'a>(
    alloc: Global,
    line: Line<'a>,
    fields: &mut Vec<Field<'a>>,
) -> Result<(), RowFault> {
    let (sign, text) = line.text.split_once(' ').unwrap_or((line.text, ""));
    if !matches!(sign, "|" | "+" | "x") {
        return begin_field(alloc, line.number, sign, text, fields);
    }
    let Some(field) = fields.last_mut() else {
        return Err(RowFault::At(line.number, Reason::NoField));
    };
    match sign {
        "x" => add_copies(alloc, line.number, text, field.value_mut()),
        "|" => {
            add_text(line.number, text, None, field.value_mut())?;
            field.value_mut().push(b'\n')?;
            Ok(())
        }
        _ => add_text(line.number, text, None, field.value_mut()),
    }
}

impl<'a> Item<'a> {
    /// The number of the first line.
    pub fn line(&self) -> usize {
        self.lines.first().map_or(0, |line| line.number)
    }

    /// Whether it begins with `every`, so that its other fields are shared by the rows after it.
    pub fn is_shared(&self) -> bool {
        self.lines.first().is_some_and(|line| line.text == "every")
    }

    /// The fields, except `every` where it begins with that, or the first line that is of no form.
    pub fn fields(&self, alloc: Global) -> Result<Vec<Field<'a>>, RowFault> {
        let mut fields = Vec::new(alloc);
        let from = usize::from(self.is_shared());
        for line in self.lines.as_slice().get(from..).unwrap_or(&[]) {
            add_line(alloc, *line, &mut fields)?;
        }
        Ok(fields)
    }
}
