//! The bytes of a file, read to a module.

ghost use Rattle.std.specs.Prelude.{◌≡◌, ◌≤◌, IfOk, IfErr, IsErrOf, length};
ghost use Rattle.std.specs.List.{slice_get};
ghost use Rattle.bdl_lexer.specs.Faults.{IsLexicalRefusalOf};
ghost use Rattle.bdl_lexer.specs.Tokens.{AreTokensOf};
ghost use Rattle.bdl_parser.specs.FirstFault.{IsParseRefusalOf};
ghost use Rattle.bdl_parser.specs.Lexemes.{lexemes_of};
ghost use Rattle.bdl_load.specs.Faults.{Blames};
ghost use Rattle.bdl_load.specs.Source.{of_lexer, of_parser, spot_at, SaysModule, IsFaultOfSource};
ghost use Rattle.bdl_parser.specs.Decls.{AreSpelledDecls};

use crate::faults::{DefCode, DefFault, FIRST_SPOT, blame};
use bdl_lexer::{LexCode, LexFault, SOURCE_MAX, Token, lex};
use bdl_parser::{Module, ParseCode, ParseFault, Spot, parse};
use std::alloc::Global;

fn lexical_code(code: LexCode) -> DefCode
    ensures { result ≡ of_lexer code }
{
    match code {
        LexCode::NotUtf8 => DefCode::NotUtf8,
        LexCode::BadByte => DefCode::BadByte,
        LexCode::OpenComment => DefCode::OpenComment,
        LexCode::OpenString => DefCode::OpenString,
        LexCode::NumberRange => DefCode::NumberRange,
    }
}

fn parse_code(code: ParseCode) -> DefCode
    ensures { result ≡ of_parser code }
{
    match code {
        ParseCode::Expected => DefCode::Expected,
        ParseCode::TypeNesting => DefCode::TypeNesting,
    }
}

/// The place of the token with that number, or of the last token.
fn spot_of(source: &[u8], tokens: &[Token], number: usize) -> Spot
    ensures { result ≡ spot_at (lexemes_of source.now tokens.now) number }
{
    match tokens.get(number.min(tokens.len().saturating_sub(1))) {
        Some(token) => Spot {
            line: token.line,
            column: token.column,
        },
        None => FIRST_SPOT,
    }
}

/// The refusal for a lexical fault of the file of this name.
fn lexical_fault(alloc: Global, name: &str, source: &[u8], fault: LexFault) -> DefFault
    requires fits { length source.now ≤ SOURCE_MAX }
    requires fault { IsLexicalRefusalOf source.now fault }
    ensures says { Blames (IsFaultOfSource name.now source.now) result }
    ensures inside { result ≡ DefFault.Failed → ⊥ }
{
    match fault {
        LexFault::At { line, column, code } => {
            blame(alloc, name, Spot { line, column }, lexical_code(code))
        }
        LexFault::Memory => DefFault::Memory,
    }
}

/// The refusal for a parse fault of the file of this name.
fn syntax_fault(
    alloc: Global,
    name: &str,
    source: &[u8],
    tokens: &[Token],
    fault: ParseFault,
) -> DefFault
    requires fits { length source.now ≤ SOURCE_MAX }
    requires are { AreTokensOf source.now tokens.now }
    requires fault { IsParseRefusalOf (lexemes_of source.now tokens.now) fault }
    ensures says { Blames (IsFaultOfSource name.now source.now) result }
    ensures inside { result ≡ DefFault.Failed → ⊥ }
{
    match fault {
        ParseFault::At { token, code } => {
            let at = spot_of(source, tokens, token);
            blame(alloc, name, at, parse_code(code))
        }
        ParseFault::Memory => DefFault::Memory,
    }
}

/// Reads the bytes of the file of this name once to their tokens, and these once to a module.
pub(crate) fn read_source(alloc: Global, name: &str, source: &[u8]) -> Result<Module, DefFault>
    ensures read { IfOk result (SaysModule source.now) }
    ensures spelled { IfOk result (λ found. AreSpelledDecls found.decls) }
    ensures fault { IfErr result (Blames (IsFaultOfSource name.now source.now)) }
    ensures inside { IsErrOf result DefFault.Failed → ⊥ }
{
    if source.len() > SOURCE_MAX {
        return Err(blame(alloc, name, FIRST_SPOT, DefCode::DefTooLong));
    }
    let tokens = match lex(alloc, source) {
        Ok(tokens) => tokens,
        Err(fault) => return Err(lexical_fault(alloc, name, source, fault)),
    };
    match parse(alloc, source, &tokens) {
        Ok(module) => Ok(module),
        Err(fault) => Err(syntax_fault(alloc, name, source, &tokens, fault)),
    }
}
