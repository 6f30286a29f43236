//! The objects of a call.

use outside::{MemoryLibrary, MemorySink, MemorySource, read_all};
use std::alloc::Global;
use std::test::Fail;

/// The objects of a call.
#[derive(Drop)]
pub struct Objects {
    pub library: MemoryLibrary,
    pub source: MemorySource,
    pub out: MemorySink,
    pub errs: MemorySink,
}

/// A library with these files, whose fetches of these numbers fail. A file is its name, a bar and
/// what it holds; an empty text is none.
pub fn library_of(alloc: Global, files: &str, failing: &[u64]) -> Result<MemoryLibrary, Fail> {
    let mut library = MemoryLibrary::new(alloc, Vec::from_slice(alloc, failing)?);
    for file in files.split("\n\n") {
        match file.split_once('|') {
            Some((name, content)) => library.add(name, content.as_bytes())?,
            None if file.is_empty() => {}
            None => return Err(Fail::new("a file without a bar")),
        }
    }
    Ok(library)
}

impl Objects {
    /// Objects with these files and this input, none of which fails. They take and give a few bytes
    /// at a time.
    pub fn new(alloc: Global, files: &str, input: &[u8]) -> Result<Objects, Fail> {
        let content = Vec::from_slice(alloc, input)?;
        Ok(Objects {
            library: library_of(alloc, files, &[])?,
            source: MemorySource::new(content, 61, Vec::new(alloc)),
            out: MemorySink::new(alloc, 1 << 19, 5, Vec::new(alloc))?,
            errs: MemorySink::new(alloc, 256, 11, Vec::new(alloc))?,
        })
    }

    /// What is left of the source.
    pub fn left(&mut self, alloc: Global) -> Result<Vec<u8>, Fail> {
        Ok(read_all(alloc, &mut self.source, 1 << 30)?)
    }
}
