//! Graphs and contexts from texts, and long texts of graphs, for the crates of tests.
#![tactic(auto)]

ghost use Rattle.std.specs.Prelude.{IfOk};
ghost use Rattle.trace_model.specs.Graphs.{IsOfTable};

use atom_list::Context;
use field_table::Table;
use graph_text::{Graph, read_graph};
use std::alloc::Global;
use std::fmt::Write;
use std::test::Fail;
use text_lines::hex_bytes;
use wire_bytes::read_context_owned;

/// The graph of a text that says one.
pub fn graph_of(alloc: Global, table: &Table, text: &str) -> Result<Graph, Fail>
    ensures { IfOk result (IsOfTable table.now) }
{
    match read_graph(alloc, table, text.as_bytes()) {
        Ok(graph) => Ok(graph),
        Err(fault) => Err(Fail::new(format_args!("{fault:?}"))),
    }
}

/// The context whose bytes have these digits, or a dash for none.
pub fn context_of_bytes(alloc: Global, digits: &str) -> Result<Context, Fail> {
    let bytes = hex_bytes(alloc, digits.as_bytes())?;
    Ok(read_context_owned(alloc, bytes)?)
}

/// The contexts whose digits a text has, with this mark between them. An empty text says none.
pub fn contexts_of_bytes(alloc: Global, joined: &str, mark: char) -> Result<Vec<Context>, Fail> {
    let mut contexts = Vec::new(alloc);
    if joined.is_empty() {
        return Ok(contexts);
    }
    for digits in joined.split(mark) {
        contexts.push(context_of_bytes(alloc, digits)?)?;
    }
    Ok(contexts)
}

/// A text with a word `times` times at the end.
pub fn with_words(alloc: Global, text: &str, word: &str, times: usize) -> Result<String, Fail> {
    let mut whole = String::from_str(alloc, text)?;
    for _ in 0..times {
        whole.push_str(word)?;
    }
    Ok(whole)
}

/// The text of a service that knows all, a start, and `branches` branches of that.
pub fn star_text(alloc: Global, branches: usize) -> Result<String, Fail> {
    let mut text = String::from_str(alloc, "service a all\nstart 0 a\n")?;
    for branch in 0..branches {
        let step = branch + 1;
        writeln!(text, "branch {step} 0")?;
    }
    Ok(text)
}
