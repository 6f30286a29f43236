//! A walk over the pieces of a source.

ghost use Rattle.std.specs.Prelude.{◌≡◌, ℕ, ◌+◌, ◌<◌, ◌≤◌, ◌↔◌, IsTrue, length, take, drop, IfOk, IfErr};
ghost use Rattle.bdl_lexer.specs.declared.TheConstants.{SOURCE_MAX};

use crate::scan::{Found, scan};
use crate::{LexCode, LexFault, Token};

/// Where a byte is: its number in the source, its line and its byte of that line.
#[derive(Clone, Copy)]
pub(crate) struct Place {
    pub at: usize,
    pub line: u32,
    pub column: u32,
}

impl Place {
    ghost use Rattle.std.specs.Option.{option_map};
    ghost use Rattle.bdl_lexer.specs.Tokens.{token_of};

    /// The token that a piece at this place is, if it is one.
    fn token(self, found: Found) -> Option<Token>
        ensures { result ≡ option_map (token_of self found.len) found.class }
    {
        let class = found.class?;
        Some(Token {
            class,
            at: self.at,
            len: found.len,
            line: self.line,
            column: self.column,
        })
    }
}

/// What is left of a source, and where it begins.
#[derive(Drop)]
pub(crate) struct Lexer<'a> {
    pub rest: &'a [u8],
    pub place: Place,
    ghost small: { place.at + length rest.now ≤ SOURCE_MAX },
    ghost line_small: { place.line ≤ place.at + 1 },
    ghost column_small: { place.column ≤ place.at + 1 },
}

impl<'a> Lexer<'a> {
    ghost use Rattle.bdl_lexer.specs.Places.{first_place, place_behind};
    ghost use Rattle.bdl_lexer.specs.Lexer.{IsTaken, IsFaultHere};
    ghost use Rattle.bdl_lexer.specs.declared.LexFault.TheVariants.{At};

    pub fn new(source: &'a [u8]) -> Self
        requires { length source.now ≤ SOURCE_MAX }
        ensures rest { result.rest.now ≡ source.now }
        ensures place { result.place ≡ first_place }
    {
        Lexer {
            rest: source,
            place: Place {
                at: 0,
                line: 1,
                column: 1,
            },
        }
    }

    pub fn is_at_end(&self) -> bool
        ensures { IsTrue result ↔ (length self.now.rest.now ≡ 0) }
    {
        self.rest.is_empty()
    }

    /// The fault of that code at this place.
    pub fn fault(&self, code: LexCode) -> LexFault
        ensures { result ≡ At self.now.place.line self.now.place.column code }
    {
        LexFault::At {
            line: self.place.line,
            column: self.place.column,
            code,
        }
    }

    /// Goes on by `len` bytes.
    pub fn skip(&mut self, len: usize)
        requires { len ≤ length self.old.rest.now }
        ensures rest { self.new.rest.now ≡ drop len self.old.rest.now }
        ensures place { self.new.place ≡ place_behind self.old.place (take len self.old.rest.now) }
    {
        let text = &self.rest[..len];
        let mut place = self.place;
        for byte in text {
            place.at += 1;
            if *byte == b'\n' {
                place.line += 1;
                place.column = 1;
            } else {
                place.column += 1;
            }
        }
        self.rest = &self.rest[len..];
        self.place = place;
    }

    /// The next piece: a token, or a blank or a comment.
    pub fn piece(&mut self) -> Result<Option<Token>, LexFault>
        requires { 0 < length self.old.rest.now }
        ensures piece { IfOk result
            (IsTaken self.old.rest.now self.old.place self.new.rest.now self.new.place) }
        ensures fault { IfErr result (IsFaultHere self.old.rest.now self.old.place) }
    {
        let place = self.place;
        let found = match scan(self.rest) {
            Ok(found) => found,
            Err(code) => return Err(self.fault(code)),
        };
        self.skip(found.len);
        Ok(place.token(found))
    }
}
