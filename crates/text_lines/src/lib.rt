//! Texts that are read line by line: their lines with numbers, the words of a line, decimal
//! numbers, bytes as hexadecimal digits, and the first bad line.
//!
//! ```rust
//! for line in lines_of(input) {                             // blank lines and comments are skipped
//!     let (count, rest) = take_number(line.text, 100)?;     // `42 2a2b`: 42 and `2a2b`
//!     let bytes = hex_bytes(alloc, rest)?;
//! }
//! ```
#![tactic(auto)]

mod decimals;
mod fed_lines;
mod hex_lines;
mod lines;
mod words;

pub use decimals::{read_decimal, read_number, take_number};
pub use fed_lines::{cut_fed_line, without_feed};
pub use hex_lines::{HexCode, HexFault, hex_bytes, hex_line, push_digits, push_hex};
pub use lines::{Line, Lines, lines_of};
pub use words::{cut_str, cut_word, is_one_word, is_word};

/// The most bytes of an input.
pub const INPUT_MAX: usize = 16_777_216;

/// The most bytes of a text of hexadecimal digits.
pub const DIGITS_MAX: usize = 2_097_152;
