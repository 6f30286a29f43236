//! What no clause says: that these calls succeed, which calls of an object in memory fail, and how
//! much a piece holds.

ghost use Rattle.std.specs.Prelude.{◌≡◌, ◌+◌, ◌^◌, ◌<◌, length};

use outside::{
    Gate, Library, LibraryFault, Memory, MemoryLibrary, MemorySink, MemorySource, Octets, Open,
    ReadFault, Sink, Source, SureLibrary, SureSink, SureSource, Text, Words, read_all, write_all,
};
use std::alloc::Global;
use std::test::Fail;

/// Takes what may be sent to threads and shared between them, and nothing else.
fn crosses_threads<T: Send + Sync>(_value: &T) {}

/// How many words there are, counted one by one.
fn count_of(words: &Words) -> usize
    ensures { result ≡ length words.now }
{
    words.iter().count()
}

#[test]
fn texts(rt: HostRuntime) -> Result<(), Fail> {
    let alloc = rt.alloc();
    let text = Text::of(alloc, "a")?;
    assert_eq!(rt; text.as_str(), "a");
    let copy = text.copy()?;
    assert_eq!(rt; copy.as_str(), "a");
    let made = Text::from_string(String::from_str(alloc, "bc")?)?;
    assert_eq!(rt; made.as_str(), "bc");
    crosses_threads(&copy);
    crosses_threads(&Memory);
    Open.enter(0);
    Ok(())
}

#[test]
fn octets(rt: HostRuntime) -> Result<(), Fail> {
    let alloc = rt.alloc();
    let octets = Octets::of(alloc, &[0])?;
    assert_eq!(rt; octets.as_slice(), [0].as_slice());
    assert_eq!(rt; octets.copy()?.as_slice(), [0].as_slice());
    assert!(rt; Octets::empty(alloc).as_slice().is_empty());
    let made = Octets::from_vec(vec![in alloc; 7]?);
    assert_eq!(rt; made.as_slice(), [7].as_slice());
    crosses_threads(&octets);
    Ok(())
}

#[test]
fn lists_of_words(rt: HostRuntime) -> Result<(), Fail> {
    let alloc = rt.alloc();
    let mut words = Words::new(alloc);
    assert!(rt; words.is_empty());
    words.push(Text::of(alloc, "a")?)?;
    assert_eq!(rt; words.len(), 1);
    assert!(rt; matches!(words.get(0), Some(word) if word.as_str() == "a"));
    assert!(rt; words.get(1).is_none());
    words.push(Text::of(alloc, "bc")?)?;
    assert_eq!(rt; count_of(&words), 2);
    assert!(rt; are_words(&words, &["a", "bc"]));
    crosses_threads(&words);
    Ok(())
}

/// A text of a mebibyte is copied so often that no machine would have memory for the characters.
#[test]
fn copies_share_their_characters(rt: HostRuntime) -> Result<(), Fail> {
    let alloc = rt.alloc();
    let mut long = String::new(alloc);
    for _ in 0..1 << 16 {
        long.push_str("sixteen bytes ..")?;
    }
    let text = Text::from_string(long)?;
    let mut copies = Words::new(alloc);
    for _ in 0..1 << 20 {
        copies.push(text.copy()?)?;
    }
    assert!(rt; matches!(copies.get(1 << 19), Some(copy) if copy.as_str() == text.as_str()));
    Ok(())
}

/// Reads a source to its end, through the bound.
fn reads<S: Source>(alloc: Global, source: &mut S, limit: usize) -> Result<Vec<u8>, ReadFault>
    requires { limit + 1 < 2 ^ 64 }
{
    read_all(alloc, source, limit)
}

/// What is read and written.
const CONTENT: &[u8] = b"0123456789";

/// A source of the content, of whose reads these fail.
fn source_of(alloc: Global, failing: &[u64]) -> Result<MemorySource, Memory> {
    let content = Vec::from_slice(alloc, CONTENT)?;
    Ok(MemorySource::new(content, 3, Vec::from_slice(alloc, failing)?))
}

#[test]
fn whole_reads(rt: HostRuntime) -> Result<(), Fail> {
    let alloc = rt.alloc();
    let mut sure = SureSource::new(Vec::from_slice(alloc, CONTENT)?, 3);
    assert!(rt; reads(alloc, &mut sure, 10)?.as_slice() == CONTENT);
    assert!(rt; reads(alloc, &mut sure, 10)?.is_empty());
    let mut source = source_of(alloc, &[5])?;
    assert!(rt; reads(alloc, &mut source, 10)?.as_slice() == CONTENT);
    assert!(rt; matches!(reads(alloc, &mut source, 10), Err(ReadFault::Failed)));
    let mut long = SureSource::new(Vec::from_slice(alloc, CONTENT)?, 4);
    assert!(rt; matches!(reads(alloc, &mut long, 9), Err(ReadFault::TooLong)));
    Ok(())
}

#[test]
fn single_reads(rt: HostRuntime) -> Result<(), Fail> {
    let alloc = rt.alloc();
    let mut buffer = [0; 8];
    let mut source = source_of(alloc, &[1])?;
    assert_eq!(rt; source.read(&mut buffer).unwrap_or(9), 3);
    assert!(rt; source.read(&mut buffer).is_err());
    assert_eq!(rt; source.read(&mut buffer[..2]).unwrap_or(9), 2);
    assert_eq!(rt; &buffer[..2], b"34".as_slice());
    Ok(())
}

#[test]
fn writes(rt: HostRuntime) -> Result<(), Fail> {
    let alloc = rt.alloc();
    let mut sink = MemorySink::new(alloc, 12, 4, Vec::from_slice(alloc, &[3])?)?;
    assert!(rt; write_all(&mut sink, CONTENT).is_ok());
    assert!(rt; write_all(&mut sink, CONTENT).is_err());
    assert_eq!(rt; sink.write(CONTENT).unwrap_or(9), 2);
    assert_eq!(rt; sink.taken(), b"012345678901".as_slice());
    assert!(rt; sink.write(CONTENT).is_err());
    assert_eq!(rt; SureSink::new().write(CONTENT).unwrap_or(9), 10);
    Ok(())
}

/// Fetches a file, through the bound.
fn fetches<L: Library>(
    alloc: Global,
    library: &mut L,
    name: &str,
) -> Result<Option<Vec<u8>>, LibraryFault> {
    library.fetch(alloc, name)
}

/// Whether these are the words, in this order.
fn are_words(words: &Words, these: &[&'static str]) -> bool {
    words.len() == these.len()
        && words
            .iter()
            .zip(these)
            .all(|(word, this)| word.as_str() == *this)
}

/// Whether this file was fetched.
fn is_file(found: &Result<Option<Vec<u8>>, LibraryFault>, content: &[u8]) -> bool {
    matches!(found, Ok(Some(file)) if file.as_slice() == content)
}

#[test]
fn sure_files(rt: HostRuntime) -> Result<(), Fail> {
    let alloc = rt.alloc();
    let mut sure = SureLibrary::new(alloc);
    assert!(rt; matches!(fetches(alloc, &mut sure, "f"), Ok(None)));
    assert!(rt; sure.add("f", b"a").is_ok());
    assert!(rt; is_file(&fetches(alloc, &mut sure, "f"), b"a"));
    Ok(())
}

/// Names that are asked for in turn, the content that each is given before, and what is fetched.
static FETCHES: [(&str, Option<&str>, Result<Option<&str>, LibraryFault>); 7] = [
    ("f", Some("a"), Ok(Some("a"))),
    ("f", None, Err(LibraryFault::Failed)),
    ("g", None, Ok(None)),
    ("g", None, Err(LibraryFault::Failed)),
    ("f", Some("bc"), Ok(Some("bc"))),
    ("g", Some(""), Ok(Some(""))),
    ("f", None, Ok(Some("bc"))),
];

/// Whether this was fetched.
fn is_fetched(
    found: &Result<Option<Vec<u8>>, LibraryFault>,
    expected: &Result<Option<&'static str>, LibraryFault>,
) -> bool {
    match expected {
        Ok(Some(content)) => is_file(found, content.as_bytes()),
        Ok(None) => matches!(found, Ok(None)),
        Err(_fault) => matches!(found, Err(LibraryFault::Failed)),
    }
}

#[test]
fn files(rt: HostRuntime) -> Result<(), Fail> {
    let alloc = rt.alloc();
    let mut library = MemoryLibrary::new(alloc, vec![in alloc; 1, 3]?);
    for (name, given, expected) in &FETCHES {
        if let Some(content) = given {
            library.add(name, content.as_bytes())?;
        }
        let found = fetches(alloc, &mut library, name);
        assert!(rt; is_fetched(&found, expected), "{name}");
    }
    let asked = ["f", "f", "g", "g", "f", "g", "f"];
    assert!(rt; matches!(library.asked(), Some(names) if are_words(names, &asked)));
    Ok(())
}

#[test]
fn long_files(rt: HostRuntime) -> Result<(), Fail> {
    let alloc = rt.alloc();
    let mut library = MemoryLibrary::new(alloc, Vec::new(alloc));
    library.add("f", &vec![in alloc; b'a'; 1_048_578]?)?;
    let found = fetches(alloc, &mut library, "f");
    assert!(rt; matches!(&found, Ok(Some(file)) if file.len() == 1_048_577));
    Ok(())
}
