//! A walk over the tokens of a source, and what it reads of one token.

ghost use Rattle.std.specs.Prelude.{◌≡◌, ◌<◌, true, [], length, drop, MatchOption, IfSome, IfOk, IfErr};
ghost use Rattle.bag_model.specs.Words.{is_name};
ghost use Rattle.bdl_parser.specs.Grammar.{this_word, this_sign, a_name, a_number, a_text};
ghost use Rattle.bdl_parser.specs.Refusals.{meets, IsTokenRefused, meant_by, IsWellSpelled, HasFirst};
ghost use Rattle.grammar_model.specs.Grammars.{IsOne};

use crate::ParseCode;
use crate::trees::Spot;
use crate::words::{is, is_name, text_with};
use bdl_lexer::{Token, TokenClass};
use outside::{OrMemory, Text};
use std::alloc::Global;
use std::marker::Model;

/// The tokens that are left, and their source. Where a form isn't read, the parser is left at the
/// token that is wrong. Contracts see what the tokens say.
#[derive(Drop)]
pub(crate) struct Parser<'a> {
    source: &'a [u8],
    rest: &'a [Token],
}

impl<'a> Model for Parser<'a> {
    ghost use Rattle.std.specs.Prelude.{List, All};
    ghost use Rattle.bdl_lexer.specs.Spans.{LiesIn};
    ghost use Rattle.bdl_parser.specs.Lexemes.{Lexeme, lexemes_of};

    ghost Value = { List Lexeme };

    ghost view = { λ parser. lexemes_of parser.source.now parser.rest.now };

    ghost invariant = { λ parser. All (LiesIn parser.source.now) parser.rest.now };
}

/// What a token says.
#[derive(Clone, Copy)]
pub(crate) enum Meaning<'a> {
    Word(&'a [u8]),
    Number(u16),
    /// The characters between the quotes.
    Quoted(&'a [u8]),
    Sign(u8),
}

impl<'a> Parser<'a> {
    ghost use Rattle.std.specs.Prelude.{All};
    ghost use Rattle.bdl_lexer.specs.Spans.{LiesIn};
    ghost use Rattle.bdl_parser.specs.Lexemes.{lexemes_of};

    pub fn new(source: &'a [u8], tokens: &'a [Token]) -> Self
        requires { All (LiesIn source.now) tokens.now }
        ensures { result ≡ lexemes_of source.now tokens.now }
    {
        Parser {
            source,
            rest: tokens,
        }
    }

    /// How many tokens are left.
    pub fn left(&self) -> usize
        ensures { result ≡ length self.now }
    {
        self.rest.len()
    }

    /// The next token.
    #[tactic(auto, using(crate::proofs::NameLaws::token_is_word))]
    pub fn peek(&self) -> Option<(Meaning<'a>, Spot)>
        ensures first { MatchOption result (self.now ≡ []) (λ found.
            HasFirst (meant_by found.0) found.1 self.now) }
        ensures formed { IfSome result (λ found. IsWellSpelled found.0) }
    {
        let token = self.rest.first()?;
        let text = &self.source[token.at..token.at + token.len];
        let what = match token.class {
            TokenClass::Word => Meaning::Word(text),
            TokenClass::Number(value) => Meaning::Number(value),
            TokenClass::Text => Meaning::Quoted(&text[1..text.len() - 1]),
            TokenClass::Sign(byte) => Meaning::Sign(byte),
        };
        let spot = Spot {
            line: token.line,
            column: token.column,
        };
        Some((what, spot))
    }

    /// Goes on after the next token.
    pub fn advance(&mut self)
        requires { 0 < length self.old }
        ensures { self.new ≡ drop 1 self.old }
    {
        self.rest = &self.rest[1..];
    }

    /// Whether this word is next.
    pub fn is_at_key(&self, word: &str) -> bool
        ensures { result ≡ meets (this_word word.now) self.now }
    {
        match self.peek() {
            Some((Meaning::Word(found), _)) => is(found, word),
            _ => false,
        }
    }

    /// Whether this sign is next.
    pub fn is_at_sign(&self, byte: u8) -> bool
        ensures { result ≡ meets (this_sign byte) self.now }
    {
        match self.peek() {
            Some((Meaning::Sign(found), _)) => found == byte,
            _ => false,
        }
    }

    /// Reads this word.
    pub fn key(&mut self, word: &str) -> Result<Spot, OrMemory<ParseCode>>
        ensures ok { IfOk result (λ spot. IsOne (this_word word.now) self.old spot self.new) }
        ensures err { IfErr result (λ fault.
            IsTokenRefused (this_word word.now) fault self.old self.new) }
    {
        match self.peek() {
            Some((Meaning::Word(found), spot)) if is(found, word) => {
                self.advance();
                Ok(spot)
            }
            _ => Err(OrMemory::Fault(ParseCode::Expected)),
        }
    }

    /// Reads this sign.
    pub fn sign(&mut self, byte: u8) -> Result<Spot, OrMemory<ParseCode>>
        ensures ok { IfOk result (λ spot. IsOne (this_sign byte) self.old spot self.new) }
        ensures err { IfErr result (λ fault.
            IsTokenRefused (this_sign byte) fault self.old self.new) }
    {
        match self.peek() {
            Some((Meaning::Sign(found), spot)) if found == byte => {
                self.advance();
                Ok(spot)
            }
            _ => Err(OrMemory::Fault(ParseCode::Expected)),
        }
    }

    /// Reads a number.
    pub fn number(&mut self) -> Result<(u16, Spot), OrMemory<ParseCode>>
        ensures ok { IfOk result (λ found. IsOne a_number self.old found self.new) }
        ensures err { IfErr result (λ fault. IsTokenRefused a_number fault self.old self.new) }
    {
        match self.peek() {
            Some((Meaning::Number(value), spot)) => {
                self.advance();
                Ok((value, spot))
            }
            _ => Err(OrMemory::Fault(ParseCode::Expected)),
        }
    }

    /// Reads what is between two quotes.
    pub fn quoted(&mut self, alloc: Global) -> Result<(Text, Spot), OrMemory<ParseCode>>
        ensures ok { IfOk result (λ found. IsOne a_text self.old found self.new) }
        ensures err { IfErr result (λ fault. IsTokenRefused a_text fault self.old self.new) }
    {
        match self.peek() {
            Some((Meaning::Quoted(bytes), spot)) => {
                let text = text_with(alloc, bytes)?;
                self.advance();
                Ok((text, spot))
            }
            _ => Err(OrMemory::Fault(ParseCode::Expected)),
        }
    }

    /// Reads a name, which is no reserved word.
    pub fn name(&mut self, alloc: Global) -> Result<(Text, Spot), OrMemory<ParseCode>>
        ensures ok { IfOk result (λ found. IsOne a_name self.old found self.new) }
        ensures named { IfOk result (λ found. is_name found.0 ≡ true) }
        ensures err { IfErr result (λ fault. IsTokenRefused a_name fault self.old self.new) }
    {
        match self.peek() {
            Some((Meaning::Word(bytes), spot)) if is_name(bytes) => {
                let text = text_with(alloc, bytes)?;
                self.advance();
                Ok((text, spot))
            }
            _ => Err(OrMemory::Fault(ParseCode::Expected)),
        }
    }
}
