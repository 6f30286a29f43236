//! What a line says of a field.

ghost use Rattle.std.specs.Prelude.{◌≡◌, IfOk, IfErr, MatchOption};
ghost use Rattle.field_table.specs.Plain.{IsIndexedShape};
ghost use Rattle.table_text.specs.Rows.{SaysRow};
ghost use Rattle.table_text.specs.Words.{HasNoParts, parts_line};
ghost use Rattle.text_lines.specs.Words.{HasNoSpace, IsCut};
ghost use Rattle.table_text.specs.Views.{plain_row_of, HasNoRow};

use crate::MAPS_MAX;
use crate::faults::TableCode;
use crate::shapes::read_shape;
use crate::words::{read_depth, read_name, read_number};
use field_table::Shape;
use outside::OrMemory;
use std::alloc::Global;
use text_lines::{cut_word, without_feed};

/// A field at a depth, as a line says it. A bag that its shape ends in is without its fields.
#[derive(Drop)]
pub(crate) struct Row<'a> {
    pub depth: u64,
    pub name: &'a str,
    pub number: u16,
    pub shape: Shape,
}

/// The parts of a line.
#[derive(Clone, Copy)]
struct Parts<'a> {
    depth: &'a [u8],
    number: &'a [u8],
    name: &'a [u8],
    shape: &'a [u8],
}

/// [`cut_word`] of a text whose first word is a single digit more often than not, for which no
/// space is searched.
fn cut_number(text: &[u8]) -> Option<(&[u8], &[u8])>
    ensures { MatchOption result (HasNoSpace text.now)
        (λ cut. HasNoSpace cut.0.now × IsCut text.now cut.0.now cut.1.now) }
{
    match text {
        [b'0'..=b'9', b' ', rest @ ..] => Some((&text[..1], rest)),
        _ => cut_word(text),
    }
}

/// The parts of a line, which ends with a line feed.
fn cut_parts(line: &[u8]) -> Option<Parts<'_>>
    ensures { MatchOption result (HasNoParts line.now)
        (λ parts. HasNoSpace parts.depth.now × HasNoSpace parts.number.now
        × HasNoSpace parts.name.now
        × (line.now ≡ parts_line parts.depth.now parts.number.now parts.name.now parts.shape.now)) }
{
    let text = without_feed(line)?;
    let (depth, rest) = cut_number(text)?;
    let (number, rest) = cut_number(rest)?;
    let (name, shape) = cut_word(rest)?;
    Some(Parts {
        depth,
        number,
        name,
        shape,
    })
}

/// What a line says, with its line feed.
pub(crate) fn read_row(alloc: Global, line: &[u8]) -> Result<Row<'_>, OrMemory<TableCode>>
    ensures ok { IfOk result (λ row. SaysRow line.now (plain_row_of row)) }
    ensures indexed { IfOk result (λ row. IsIndexedShape row.shape) }
    ensures err { IfErr result (HasNoRow line.now) }
{
    let Some(parts) = cut_parts(line) else {
        return Err(OrMemory::Fault(TableCode::Form));
    };
    let Some(number) = read_number(parts.number) else {
        return Err(OrMemory::Fault(TableCode::Form));
    };
    let Some(name) = read_name(parts.name) else {
        return Err(OrMemory::Fault(TableCode::Form));
    };
    let Some(shape) = read_shape(alloc, parts.shape, MAPS_MAX)? else {
        return Err(OrMemory::Fault(TableCode::Form));
    };
    let depth = read_depth(parts.depth)?;
    Ok(Row {
        depth,
        name,
        number,
        shape,
    })
}
