//! Rows of sources: their tokens and their modules.

ghost use Rattle.std.specs.Prelude.{◌≤◌, length, IfOk};

use crate::answers::Answer;
use crate::trees::module_text;
use bdl_lexer::{LexFault, SOURCE_MAX, Token, lex};
use bdl_parser::{ParseFault, parse};
use row_files::{Reason, Row, RowFault};
use std::alloc::Global;
use std::fmt::Write;

/// The source of a row, which can't be longer than any may be.
fn source_of(row: Row<'_>) -> Result<&[u8], RowFault>
    ensures { IfOk result (λ source. length source.now ≤ SOURCE_MAX) }
{
    let field = row.needed("source")?;
    let source = field.value();
    if source.len() > SOURCE_MAX {
        return Err(field.fault(Reason::Number));
    }
    Ok(source)
}

/// The tokens: the class, the first byte and the length, and the place of each.
fn tokens_text(alloc: Global, tokens: &[Token]) -> Result<String, RowFault> {
    let mut text = String::new(alloc);
    for token in tokens {
        let (class, at, len) = (token.class, token.at, token.len);
        let (line, column) = (token.line, token.column);
        writeln!(&mut text, "{class:?} {at}+{len} {line}:{column}")?;
    }
    Ok(text)
}

/// The fault of a source without tokens.
fn lexical(alloc: Global, fault: LexFault) -> Result<Answer, RowFault> {
    match fault {
        LexFault::At { line, column, code } => Answer::at(alloc, line, column, code),
        LexFault::Memory => Err(RowFault::Memory),
    }
}

/// The tokens of a row's source.
pub fn tokens(alloc: Global, row: Row<'_>) -> Result<Answer, RowFault> {
    match lex(alloc, source_of(row)?) {
        Ok(tokens) => Ok(Answer::Is("tokens", tokens_text(alloc, &tokens)?)),
        Err(fault) => lexical(alloc, fault),
    }
}

/// The module of a row's source. A fault of its form is that of a token, by its number.
pub fn module(alloc: Global, row: Row<'_>) -> Result<Answer, RowFault> {
    let source = source_of(row)?;
    let tokens = match lex(alloc, source) {
        Ok(tokens) => tokens,
        Err(fault) => return lexical(alloc, fault),
    };
    match parse(alloc, source, &tokens) {
        Ok(module) => Ok(Answer::Is("module", module_text(alloc, &module)?)),
        Err(ParseFault::At { token, code }) => {
            Ok(Answer::Fault(format!(in alloc; "token {token} {code}")?))
        }
        Err(ParseFault::Memory) => Err(RowFault::Memory),
    }
}
