//! The module of a baggage definition, from its tokens, or its first parse fault.
//!
//! ```rust
//! // its imports and declarations, each with its place
//! let module = parse(alloc, source, &tokens)?;
//! ```
#![tactic(auto)]

ghost use Rattle.std.specs.Prelude.{All, IfOk, IfErr};
ghost use Rattle.bdl_lexer.specs.Spans.{LiesIn};
ghost use Rattle.bdl_parser.specs.FirstFault.{IsModuleOf, IsParseRefusalOf};
ghost use Rattle.bdl_parser.specs.Lexemes.{lexemes_of};
ghost use Rattle.bdl_parser.specs.Decls.{AreSpelledDecls};

mod decls;
pub mod laws;
mod lists;
mod parser;
mod trees;
mod types;
mod words;

pub use bag_model::ScalarWord;
use bdl_lexer::Token;
pub use lists::{BagFields, Decls, Imports, StructFields};
use outside::OrMemory;
use parser::Parser;
use std::alloc::Global;
use std::error::Error;
use std::fmt;
pub use trees::{BagField, Decl, Holding, Import, Module, Spot, StructField, TypeForm, TypeNode};

/// How many types may be inside one another.
pub const NESTING_MAX: u32 = 32;

/// Why tokens are no module.
#[derive(Clone, Copy, Debug, PartialEq, Eq)]
pub enum ParseCode {
    /// No module goes on with this token, or none ends here.
    Expected,
    /// Here a type begins inside [`NESTING_MAX`] others.
    TypeNesting,
}

/// The first parse fault.
#[derive(Clone, Copy, Debug, PartialEq, Eq)]
pub enum ParseFault {
    /// The token with this number, from 0 on, or the count of the tokens where the end is the
    /// fault.
    At { token: usize, code: ParseCode },
    /// There is no memory for the module.
    Memory,
}

impl fmt::Display for ParseCode {
    ghost use Rattle.std.specs.Prelude.{Some};
    ghost use Rattle.bdl_parser.specs.FaultTexts.{parse_name};

    ghost output = { λ fault. Some (parse_name fault) };

    fn fmt<W: fmt::Write>(&self, f: &mut fmt::Formatter<W>) -> fmt::Result {
        match self {
            ParseCode::Expected => write!(f, "Expected"),
            ParseCode::TypeNesting => write!(f, "TypeNesting"),
        }
    }
}

impl Error for ParseCode {}

impl fmt::Display for ParseFault {
    ghost use Rattle.std.specs.Prelude.{Some};
    ghost use Rattle.bdl_parser.specs.FaultTexts.{parse_fault_text};

    ghost output = { λ fault. Some (parse_fault_text fault) };

    fn fmt<W: fmt::Write>(&self, f: &mut fmt::Formatter<W>) -> fmt::Result {
        match self {
            ParseFault::At { token, code } => write!(f, "token {token} {code}"),
            ParseFault::Memory => write!(f, "out of memory"),
        }
    }
}

impl Error for ParseFault {}

/// Reads the tokens of a source once, from the first to the last or to the first fault. The
/// condition is what `lex` ensures of its tokens.
pub fn parse(alloc: Global, source: &[u8], tokens: &[Token]) -> Result<Module, ParseFault>
    requires { All (LiesIn source.now) tokens.now }
    ensures module { IfOk result (IsModuleOf (lexemes_of source.now tokens.now)) }
    ensures spelled { IfOk result (λ module_. AreSpelledDecls module_.decls) }
    ensures fault { IfErr result (IsParseRefusalOf (lexemes_of source.now tokens.now)) }
{
    let mut parser = Parser::new(source, tokens);
    match parser.module(alloc) {
        Ok(module) => Ok(module),
        Err(OrMemory::Fault(code)) => Err(ParseFault::At {
            token: tokens.len() - parser.left(),
            code,
        }),
        Err(OrMemory::Memory) => Err(ParseFault::Memory),
    }
}
