//! The words of a line: names and paths.

ghost use Rattle.std.specs.Prelude.{◌↔◌, IsTrue, IfOk, map};
ghost use Rattle.std.specs.Option.{option_map};
ghost use Rattle.graph_lines.specs.Forms.{IsPath};
ghost use Rattle.graph_lines.specs.Reading.{NameThen, PathThen, ArePaths};
ghost use Rattle.text_lines.specs.Answers.{IsSomeOf};
ghost use Rattle.text_lines.specs.Words.{TakesOnly};

use outside::Memory;
use std::alloc::Global;
use text_lines::{cut_str, is_word};

/// Whether the text is names with dots between them.
pub fn is_path(text: &[u8]) -> bool
    ensures { IsTrue result ↔ IsPath text.now }
{
    text.split(|byte| *byte == b'.').all(|name| is_word(name))
}

/// A name that a text begins with, and what follows the space after it.
pub(crate) fn take_name(text: &str) -> Option<(&str, &str)>
    ensures { TakesOnly (NameThen text.now) (option_map (λ cut. (cut.0.now, cut.1.now)) result) }
{
    let (name, rest) = cut_str(text)?;
    if is_word(name.as_bytes()) {
        Some((name, rest))
    } else {
        None
    }
}

/// A path that a text begins with, and what follows the space after it.
pub(crate) fn take_path(text: &str) -> Option<(&str, &str)>
    ensures { TakesOnly (PathThen text.now) (option_map (λ cut. (cut.0.now, cut.1.now)) result) }
{
    let (path, rest) = cut_str(text)?;
    if is_path(path.as_bytes()) {
        Some((path, rest))
    } else {
        None
    }
}

/// The paths that are a text, with one space between two of them.
pub(crate) fn read_paths(alloc: Global, text: &str) -> Result<Option<Vec<&str>>, Memory>
    ensures { IfOk result (λ read. IsSomeOf (ArePaths text.now)
        (option_map (λ paths. map (λ path. path.now) paths.items) read)) }
{
    let mut paths = Vec::new(alloc);
    for path in text.split(' ') {
        if !is_path(path.as_bytes()) {
            return Ok(None);
        }
        paths.push(path)?;
    }
    Ok(Some(paths))
}
