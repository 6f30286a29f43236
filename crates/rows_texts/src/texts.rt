//! Rows of words, decimal numbers, lines and digits.

use row_files::{Row, RowFault, Told, expect_count, expect_fault, expect_no_fault, expect_whether};
use std::alloc::Global;
use std::fmt::Write;
use text_lines::{
    HexFault, cut_str, cut_word, hex_bytes, hex_line, is_one_word, is_word, lines_of, read_decimal,
    read_number, take_number,
};

/// Tells where a number that may be there isn't that of the row.
fn expect_number(number: Option<u64>, row: Row<'_>, told: &mut Told<'_>) -> Result<(), RowFault> {
    match number {
        Some(number) => expect_count("number", number, row, told)?,
        None => told.expect_bytes("number", b"", row.value("number"))?,
    }
    Ok(())
}

/// Runs a row of a decimal number.
pub fn run_decimal(row: Row<'_>, told: &mut Told<'_>) -> Result<(), RowFault> {
    row.check_names(&["call", "text", "number"], &[])?;
    expect_number(read_decimal(row.needed("text")?.value()), row, told)
}

/// Runs a row of a decimal number below a bound.
pub fn run_number_below(row: Row<'_>, told: &mut Told<'_>) -> Result<(), RowFault> {
    row.check_names(&["call", "text", "bound", "number"], &[])?;
    let bound = row.needed("bound")?.number()?;
    expect_number(read_number(row.needed("text")?.value(), bound), row, told)
}

/// Runs a row of a decimal number below a bound that a text begins with.
pub fn run_take_number(row: Row<'_>, told: &mut Told<'_>) -> Result<(), RowFault> {
    row.check_names(&["call", "text", "bound", "number", "rest"], &[])?;
    let bound = row.needed("bound")?.number()?;
    match take_number(row.needed("text")?.value(), bound) {
        Some((number, rest)) => {
            expect_number(Some(number), row, told)?;
            told.expect_bytes("rest", rest, row.value("rest"))?;
            Ok(())
        }
        None => expect_number(None, row, told),
    }
}

/// Tells where the first word of a text and the rest aren't those of the row.
fn expect_cut(
    cut: Option<(&[u8], &[u8])>,
    row: Row<'_>,
    told: &mut Told<'_>,
) -> Result<(), RowFault> {
    told.expect_number(
        "number of parts",
        u64::from(cut.is_some()),
        u64::from(row.has("word")),
    )?;
    let (word, rest) = cut.unwrap_or((b"", b""));
    told.expect_bytes("word", word, row.value("word"))?;
    told.expect_bytes("rest", rest, row.value("rest"))?;
    Ok(())
}

/// Runs a row of the first word of a text, as bytes and as characters.
pub fn run_cut_word(row: Row<'_>, told: &mut Told<'_>) -> Result<(), RowFault> {
    row.check_names(&["call", "text", "word", "rest"], &[])?;
    let field = row.needed("text")?;
    expect_cut(cut_word(field.value()), row, told)?;
    match cut_str(field.text()?) {
        Some((word, rest)) => expect_cut(Some((word.as_bytes(), rest.as_bytes())), row, told),
        None => expect_cut(None, row, told),
    }
}

/// Runs a row of a text that may be one word, and one of letters and digits.
pub fn run_word(row: Row<'_>, told: &mut Told<'_>) -> Result<(), RowFault> {
    row.check_names(&["call", "text", "one_word", "letters"], &[])?;
    let text = row.needed("text")?.value();
    expect_whether("one_word", is_one_word(text), row, told)?;
    expect_whether("letters", is_word(text), row, told)
}

/// The lines of an input, each after its number.
fn numbered_lines(alloc: Global, input: &[u8]) -> Result<Vec<u8>, RowFault> {
    let mut text = Vec::new(alloc);
    for line in lines_of(input) {
        let number = line.number;
        let number = format!(in alloc; "{number} ")?;
        text.extend_from_slice(number.as_bytes())?;
        text.extend_from_slice(line.text)?;
        text.push(b'\n')?;
    }
    Ok(text)
}

/// Runs a row of the lines of an input.
pub fn run_lines(alloc: Global, row: Row<'_>, told: &mut Told<'_>) -> Result<(), RowFault> {
    row.check_names(&["call", "text", "lines"], &[])?;
    let lines = numbered_lines(alloc, row.needed("text")?.value())?;
    told.expect_bytes("lines", &lines, row.needed("lines")?.value())?;
    Ok(())
}

/// Runs a row of digits, and writes the line of the bytes that they say.
pub fn run_digits(alloc: Global, row: Row<'_>, told: &mut Told<'_>) -> Result<(), RowFault> {
    row.check_names(&["call", "text", "bytes", "line", "fault"], &[])?;
    match hex_bytes(alloc, row.needed("text")?.value()) {
        Ok(bytes) => {
            expect_no_fault(row, told)?;
            told.expect_bytes("bytes", &bytes, row.needed("bytes")?.value())?;
            let line = hex_line(alloc, &bytes)?;
            told.expect_bytes("line", &line, row.needed("line")?.value())?;
            Ok(())
        }
        Err(HexFault::Memory) => Err(RowFault::Memory),
        Err(fault) => expect_fault(alloc, &fault, row, told),
    }
}
