//! The piece with which bytes begin.

ghost use Rattle.std.specs.Prelude.{◌≡◌, ℕ, ◌<◌, true, length, slice_index, MatchOption, IfOk, IfErr};
ghost use Rattle.std.specs.Char.{is_ascii_digit};
ghost use Rattle.std.specs.List.{AllPass, take_while};
ghost use Rattle.bdl_lexer.specs.Bytes.{is_blank, is_letter, is_word_byte, is_text_byte, is_line_byte, is_sign};
ghost use Rattle.bdl_lexer.specs.Scan.{decimal_value, HasNoClose};
ghost use Rattle.bdl_lexer.specs.Faults.{IsFault};
ghost use Rattle.bdl_lexer.specs.Lexer.{StandsFirst, ClosesAt};

use crate::{LexCode, NUMBER_MAX, TokenClass};

/// The piece with which some bytes begin: its class where it is a token, and its length.
#[derive(Clone, Copy)]
pub(crate) struct Found {
    pub class: Option<TokenClass>,
    pub len: usize,
}

fn is_blank(byte: u8) -> bool
    ensures { result ≡ is_blank byte }
{
    matches!(byte, b' ' | b'\t' | b'\r' | b'\n')
}

fn is_letter(byte: u8) -> bool
    ensures { result ≡ is_letter byte }
{
    byte.is_ascii_alphabetic() || byte == b'_'
}

fn is_word_byte(byte: u8) -> bool
    ensures { result ≡ is_word_byte byte }
{
    is_letter(byte) || byte.is_ascii_digit()
}

fn is_text_byte(byte: u8) -> bool
    ensures { result ≡ is_text_byte byte }
{
    !(byte == b'"' || byte == b'\n')
}

fn is_sign(byte: u8) -> bool
    ensures { result ≡ is_sign byte }
{
    matches!(byte, b'{' | b'}' | b'<' | b'>' | b',' | b';' | b'=')
}

fn word_len(bytes: &[u8]) -> usize
    ensures { result ≡ length (take_while is_word_byte bytes.now) }
{
    bytes.iter().take_while(|byte| is_word_byte(**byte)).count()
}

fn digits_len(bytes: &[u8]) -> usize
    ensures { result ≡ length (take_while is_ascii_digit bytes.now) }
{
    bytes
        .iter()
        .take_while(|byte| byte.is_ascii_digit())
        .count()
}

fn text_len(bytes: &[u8]) -> usize
    ensures { result ≡ length (take_while is_text_byte bytes.now) }
{
    bytes.iter().take_while(|byte| is_text_byte(**byte)).count()
}

fn line_len(bytes: &[u8]) -> usize
    ensures { result ≡ length (take_while is_line_byte bytes.now) }
{
    bytes.iter().take_while(|byte| **byte != b'\n').count()
}

/// The number that decimal digits spell, if it is in range.
fn number_of(digits: &[u8]) -> Option<u16>
    requires { AllPass is_ascii_digit digits.now }
    ensures { MatchOption result (NUMBER_MAX < decimal_value digits.now)
        (λ value. value ≡ decimal_value digits.now) }
{
    let mut value: u32 = 0;
    for digit in digits {
        value = 10 * value + u32::from(*digit - b'0');
        if value > NUMBER_MAX {
            return None;
        }
    }
    Some(value as u16)
}

/// Where the first `*/` begins.
fn close_at(bytes: &[u8]) -> Option<usize>
    ensures { MatchOption result (HasNoClose bytes.now) (ClosesAt bytes.now) }
{
    let mut at = 0;
    while at + 1 < bytes.len() {
        if bytes[at] == b'*' && bytes[at + 1] == b'/' {
            return Some(at);
        }
        at += 1;
    }
    None
}

/// A number, at its first digit.
fn number(bytes: &[u8]) -> Result<Found, LexCode>
    requires some { 0 < length bytes.now }
    requires digit { is_ascii_digit (slice_index bytes.now 0) ≡ true }
    ensures found { IfOk result (λ found. StandsFirst found.class found.len bytes.now) }
    ensures fault { IfErr result (λ code. IsFault code bytes.now) }
{
    let len = digits_len(bytes);
    match number_of(&bytes[..len]) {
        Some(value) => Ok(Found {
            class: Some(TokenClass::Number(value)),
            len,
        }),
        None => Err(LexCode::NumberRange),
    }
}

/// A text, at its first quote.
fn text(bytes: &[u8]) -> Result<Found, LexCode>
    requires some { 0 < length bytes.now }
    requires quote { slice_index bytes.now 0 ≡ 34 }
    ensures found { IfOk result (λ found. StandsFirst found.class found.len bytes.now) }
    ensures fault { IfErr result (λ code. IsFault code bytes.now) }
{
    let end = 1 + text_len(&bytes[1..]);
    if end < bytes.len() && bytes[end] == b'"' {
        Ok(Found {
            class: Some(TokenClass::Text),
            len: end + 1,
        })
    } else {
        Err(LexCode::OpenString)
    }
}

/// A comment, at its first slash.
fn comment(bytes: &[u8]) -> Result<Found, LexCode>
    requires some { 0 < length bytes.now }
    requires slash { slice_index bytes.now 0 ≡ 47 }
    ensures found { IfOk result (λ found. StandsFirst found.class found.len bytes.now) }
    ensures fault { IfErr result (λ code. IsFault code bytes.now) }
{
    if bytes.len() < 2 {
        return Err(LexCode::BadByte);
    }
    let inner = &bytes[2..];
    if bytes[1] == b'/' {
        return Ok(Found {
            class: None,
            len: 2 + line_len(inner),
        });
    }
    if bytes[1] != b'*' {
        return Err(LexCode::BadByte);
    }
    match close_at(inner) {
        Some(at) => Ok(Found {
            class: None,
            len: at + 4,
        }),
        None => Err(LexCode::OpenComment),
    }
}

/// The piece with which the bytes begin, or why none does.
pub(crate) fn scan(bytes: &[u8]) -> Result<Found, LexCode>
    requires { 0 < length bytes.now }
    ensures found { IfOk result (λ found. StandsFirst found.class found.len bytes.now) }
    ensures fault { IfErr result (λ code. IsFault code bytes.now) }
{
    let first = bytes[0];
    if is_blank(first) {
        Ok(Found {
            class: None,
            len: 1,
        })
    } else if is_letter(first) {
        Ok(Found {
            class: Some(TokenClass::Word),
            len: word_len(bytes),
        })
    } else if first.is_ascii_digit() {
        number(bytes)
    } else if first == b'"' {
        text(bytes)
    } else if is_sign(first) {
        Ok(Found {
            class: Some(TokenClass::Sign(first)),
            len: 1,
        })
    } else if first == b'/' {
        comment(bytes)
    } else {
        Err(LexCode::BadByte)
    }
}
