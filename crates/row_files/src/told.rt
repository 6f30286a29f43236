//! What is reported of rows.

use crate::faults::RowFault;
use std::alloc::{AllocError, Global};
use std::fmt;
use std::fmt::Write;

/// How many rows there were, and how many of them differ.
#[derive(Clone, Copy)]
pub struct Count {
    rows: u64,
    differ: u64,
}

impl Count {
    /// No row.
    pub fn new() -> Count {
        Count { rows: 0, differ: 0 }
    }

    /// Counts those of another file too.
    pub fn add(&mut self, other: Count) {
        self.rows = self.rows.saturating_add(other.rows);
        self.differ = self.differ.saturating_add(other.differ);
    }

    /// Whether there was no row.
    pub fn is_empty(&self) -> bool {
        self.rows == 0
    }

    /// Whether a row differs.
    pub fn differs(&self) -> bool {
        0 < self.differ
    }
}

impl fmt::Display for Count {
    fn fmt<W: fmt::Write>(&self, f: &mut fmt::Formatter<W>) -> fmt::Result {
        let rows = self.rows;
        let differ = self.differ;
        write!(f, "{rows} rows, {differ} differ")
    }
}

/// The most bytes of a value that are reported.
const SHOWN_MAX: usize = 120;

/// Bytes as row files have them, or their beginning.
#[derive(Clone, Copy)]
struct Shown<'a>(&'a [u8]);

impl fmt::Display for Shown<'_> {
    fn fmt<W: fmt::Write>(&self, f: &mut fmt::Formatter<W>) -> fmt::Result {
        for byte in self.0.iter().take(SHOWN_MAX) {
            match *byte {
                b'\n' => write!(f, "\\n")?,
                b'\\' => write!(f, "\\\\")?,
                b' '..=b'~' => write!(f, "{}", char::from(*byte))?,
                other => write!(f, "\\x{other:02x}")?,
            }
        }
        Ok(())
    }
}

/// What is reported of the rows of a file.
#[derive(Drop)]
pub struct Told<'a> {
    file: &'a str,
    text: String,
    count: Count,
    /// The line that the row begins at.
    line: usize,
    /// Whether something was reported of the row.
    has_told: bool,
}

impl<'a> Told<'a> {
    /// Of this file nothing is reported.
    pub fn new(alloc: Global, file: &'a str) -> Told<'a> {
        Told {
            file,
            text: String::new(alloc),
            count: Count::new(),
            line: 0,
            has_told: false,
        }
    }

    /// What is reported.
    pub fn text(&self) -> &str {
        self.text.as_str()
    }

    /// How many rows there were.
    pub fn count(&self) -> Count {
        self.count
    }

    /// Reports on the file as a whole. It counts as a row that differs.
    pub fn tell_file(&mut self, what: &str) -> Result<(), AllocError> {
        let Told { file, text, .. } = self;
        writeln!(text, "{file}: {what}")?;
        self.count.add(Count { rows: 1, differ: 1 });
        Ok(())
    }

    /// A row begins at this line.
    pub fn begin_row(&mut self, line: usize) {
        self.line = line;
        self.has_told = false;
    }

    /// The row is done.
    pub fn end_row(&mut self) {
        let differ = u64::from(self.has_told);
        self.count.add(Count { rows: 1, differ });
    }

    /// Whether something was reported of the row.
    pub fn has_told(&self) -> bool {
        self.has_told
    }

    /// Reports why the row can't be run, unless memory ran out.
    pub fn tell_fault(&mut self, fault: RowFault) -> Result<(), AllocError> {
        if fault == RowFault::Memory {
            return Err(AllocError);
        }
        let file = self.file;
        writeln!(&mut self.text, "{file}:{fault}")?;
        self.has_told = true;
        Ok(())
    }

    /// Reports where a number isn't the one that is wanted.
    pub fn expect_number(&mut self, name: &str, found: u64, wanted: u64) -> Result<(), AllocError> {
        if found != wanted {
            let file = self.file;
            let line = self.line;
            writeln!(
                &mut self.text,
                "{file}:{line}: {name} is {found}, not {wanted}"
            )?;
            self.has_told = true;
        }
        Ok(())
    }

    /// Reports where bytes aren't those that are wanted.
    pub fn expect_bytes(
        &mut self,
        name: &str,
        found: &[u8],
        wanted: &[u8],
    ) -> Result<(), AllocError> {
        if found != wanted {
            let file = self.file;
            let line = self.line;
            let found = Shown(found);
            let wanted = Shown(wanted);
            writeln!(
                &mut self.text,
                "{file}:{line}: {name} is {found}, not {wanted}"
            )?;
            self.has_told = true;
        }
        Ok(())
    }
}
