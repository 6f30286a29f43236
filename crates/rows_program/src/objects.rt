//! The objects of a call, as a row has them.

use baggage_cli::baggage_top;
use outside::{
    Memory, MemoryLibrary, MemorySink, MemorySource, Open, ReadFault, Text, Words, read_all,
};
use row_files::{Field, Reason, Row, RowFault};
use std::alloc::Global;
use std::thread::Threads;

/// The objects of a call.
#[derive(Drop)]
pub struct Objects {
    pub library: MemoryLibrary,
    pub source: MemorySource,
    pub out: MemorySink,
    pub errs: MemorySink,
}

/// The fault of a row that runs out of memory.
pub fn wanting(_memory: Memory) -> RowFault {
    RowFault::Memory
}

/// Adds those of the fields that are files.
fn add_files(fields: &[Field<'_>], library: &mut MemoryLibrary) -> Result<(), RowFault> {
    for field in fields {
        if field.name() == "file" {
            library
                .add(field.label_text()?, field.content())
                .map_err(wanting)?;
        }
    }
    Ok(())
}

/// The library of a row, whose fetches of these numbers fail.
pub fn library_of(
    alloc: Global,
    row: Row<'_>,
    failing: Vec<u64>,
) -> Result<MemoryLibrary, RowFault> {
    let mut library = MemoryLibrary::new(alloc, failing);
    add_files(row.shared, &mut library)?;
    add_files(row.own, &mut library)?;
    Ok(library)
}

/// A source of these bytes, which gives at most `piece` at a time, and whose reads of these numbers
/// fail.
pub fn source_of(
    alloc: Global,
    input: &[u8],
    piece: usize,
    failing: Vec<u64>,
) -> Result<MemorySource, RowFault> {
    let content = Vec::from_slice(alloc, input)?;
    Ok(MemorySource::new(content, piece.max(1), failing))
}

/// A sink with this room, which takes at most `piece` bytes at a time, and whose writes of these
/// numbers fail.
pub fn sink_of(
    alloc: Global,
    room: usize,
    piece: usize,
    failing: Vec<u64>,
) -> Result<MemorySink, RowFault> {
    MemorySink::new(alloc, room, piece.max(1), failing).map_err(wanting)
}

/// What is left of the source.
pub fn left_of(alloc: Global, source: &mut MemorySource) -> Result<Vec<u8>, RowFault> {
    match read_all(alloc, source, 1 << 30) {
        Ok(left) => Ok(left),
        Err(ReadFault::Memory | ReadFault::TooLong | ReadFault::Failed) => Err(RowFault::Memory),
    }
}

/// The names that the library was asked for, with blanks between them.
pub fn asked_of(alloc: Global, library: &MemoryLibrary) -> Result<String, RowFault> {
    let names = library.asked().ok_or(RowFault::Memory)?;
    let mut text = String::new(alloc);
    for name in names.iter() {
        if !text.is_empty() {
            text.push(' ')?;
        }
        text.push_str(name.as_str())?;
    }
    Ok(text)
}

/// The words of a text, which is cut at blanks.
pub fn cut_words(alloc: Global, text: &str) -> Result<Words, RowFault> {
    let mut words = Words::new(alloc);
    for word in text.split_whitespace() {
        let word = Text::of(alloc, word).map_err(wanting)?;
        words.push(word).map_err(wanting)?;
    }
    Ok(words)
}

/// The words of a row: each of its fields `word`, or those of its field `words`.
pub fn words_of(alloc: Global, row: Row<'_>) -> Result<Words, RowFault> {
    let mut words = Words::new(alloc);
    for field in row.own {
        if field.name() == "word" {
            let word = Text::of(alloc, field.text()?).map_err(wanting)?;
            words.push(word).map_err(wanting)?;
        }
    }
    if !words.is_empty() {
        return Ok(words);
    }
    cut_words(alloc, row.needed("words")?.text()?)
}

/// Calls the program, and answers its status.
pub fn call<R: Threads + Sync>(rt: &R, alloc: Global, words: &Words, objects: &mut Objects) -> u8 {
    baggage_top(
        rt,
        alloc,
        &Open,
        words,
        &mut objects.library,
        &mut objects.source,
        &mut objects.out,
        &mut objects.errs,
    )
}

/// A size of a row, or another one where it has none.
pub fn size_of(row: Row<'_>, name: &str, other: usize) -> Result<usize, RowFault> {
    match row.field(name) {
        Some(field) => usize::try_from(field.number()?).map_err(|_| field.fault(Reason::Number)),
        None => Ok(other),
    }
}
