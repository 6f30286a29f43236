//! The tokens of a baggage definition, or its first lexical fault.
//!
//! ```rust
//! let tokens = lex(alloc, source)?;  // or the first lexical fault, with line and column
//! ```
#![tactic(auto)]

ghost use Rattle.std.specs.Prelude.{◌≤◌, length, All, IfOk, IfErr};
ghost use Rattle.bdl_lexer.specs.Spans.{LiesIn, AreInOrder};
ghost use Rattle.bdl_lexer.specs.Tokens.{AreTokensOf};
ghost use Rattle.bdl_lexer.specs.Faults.{IsLexicalRefusalOf};

pub mod laws;
mod lexer;
mod scan;

use lexer::Lexer;
use std::alloc::{AllocFailed, Global};
use std::error::Error;
use std::{fmt, str};

/// What a token is.
#[derive(Clone, Copy, Debug, PartialEq, Eq)]
pub enum TokenClass {
    /// A letter or `_`, and then letters, `_` and digits: a reserved word or a name.
    Word,
    /// Decimal digits, and the number that they spell.
    Number(u16),
    /// Characters between two quotes on one line.
    Text,
    /// One of `{`, `}`, `<`, `>`, `,`, `;` and `=`, as its byte.
    Sign(u8),
}

/// A token and where its source has it.
#[derive(Clone, Copy, Debug, PartialEq, Eq)]
pub struct Token {
    pub class: TokenClass,
    /// The number of its first byte in the source.
    pub at: usize,
    /// Its length in bytes.
    pub len: usize,
    /// The line of its first byte, from 1 on.
    pub line: u32,
    /// The byte of that line at which it begins, from 1 on.
    pub column: u32,
}

/// Why a source has no tokens.
#[derive(Clone, Copy, Debug, PartialEq, Eq)]
pub enum LexCode {
    /// The bytes from here on aren't UTF-8.
    NotUtf8,
    /// No token, blank or comment begins with this byte.
    BadByte,
    /// A `/*` without a `*/` after it.
    OpenComment,
    /// A `"` without another on its line.
    OpenString,
    /// A number above [`NUMBER_MAX`].
    NumberRange,
}

/// The first lexical fault of a source, at a line and a byte of that line, both from 1 on.
#[derive(Clone, Copy, Debug, PartialEq, Eq)]
pub enum LexFault {
    At {
        line: u32,
        column: u32,
        code: LexCode,
    },
    /// There is no memory for the tokens.
    Memory,
}

impl fmt::Display for LexCode {
    ghost use Rattle.std.specs.Prelude.{Some};
    ghost use Rattle.bdl_lexer.specs.FaultTexts.{lex_name};

    ghost output = { λ fault. Some (lex_name fault) };

    fn fmt<W: fmt::Write>(&self, f: &mut fmt::Formatter<W>) -> fmt::Result {
        match self {
            LexCode::NotUtf8 => write!(f, "NotUtf8"),
            LexCode::BadByte => write!(f, "BadByte"),
            LexCode::OpenComment => write!(f, "OpenComment"),
            LexCode::OpenString => write!(f, "OpenString"),
            LexCode::NumberRange => write!(f, "NumberRange"),
        }
    }
}

impl Error for LexCode {}

impl fmt::Display for LexFault {
    ghost use Rattle.std.specs.Prelude.{Some};
    ghost use Rattle.bdl_lexer.specs.FaultTexts.{lex_fault_text};

    ghost output = { λ fault. Some (lex_fault_text fault) };

    fn fmt<W: fmt::Write>(&self, f: &mut fmt::Formatter<W>) -> fmt::Result {
        match self {
            LexFault::At { line, column, code } => write!(f, "{line}:{column} {code}"),
            LexFault::Memory => write!(f, "out of memory"),
        }
    }
}

impl Error for LexFault {}

impl From<AllocFailed<Token>> for LexFault {
    ghost use Rattle.std.specs.Prelude.{◌≡◌};
    ghost use Rattle.bdl_lexer.specs.declared.LexFault.TheVariants.{Memory};

    ghost from_gives = { λ _ fault. fault ≡ Memory };

    fn from(_error: AllocFailed<Token>) -> Self {
        LexFault::Memory
    }
}

/// The longest source that is read, in bytes.
pub const SOURCE_MAX: usize = 1_048_576;

/// The largest number that a token may spell.
pub const NUMBER_MAX: u32 = 65_535;

/// Reads a source once, from its first byte to its last or to its first fault.
pub fn lex(alloc: Global, source: &[u8]) -> Result<Vec<Token>, LexFault>
    requires { length source.now ≤ SOURCE_MAX }
    ensures tokens { IfOk result (λ tokens. AreTokensOf source.now tokens.items) }
    ensures lie { IfOk result (λ tokens. All (LiesIn source.now) tokens.items) }
    ensures order { IfOk result (λ tokens. AreInOrder 0 tokens.items) }
    ensures fault { IfErr result (IsLexicalRefusalOf source.now) }
{
    let mut lexer = Lexer::new(source);
    if let Err(error) = str::from_utf8(source) {
        lexer.skip(error.valid_up_to());
        return Err(lexer.fault(LexCode::NotUtf8));
    }
    let mut tokens = Vec::new(alloc);
    while !lexer.is_at_end() {
        if let Some(token) = lexer.piece()? {
            tokens.push(token)?;
        }
    }
    Ok(tokens)
}
