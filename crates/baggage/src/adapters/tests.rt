//! What no clause says: what the files of the system answer, which failures of a stream count, and
//! that the program hands on its status and says a refusal to the stream of errors.

use super::{FileLibrary, StreamSink, StreamSource, words_behind_first};
use crate::run;
use outside::{FETCH_MAX, Library, LibraryFault, Memory, Sink, Source, Words};
use std::alloc::Global;
use std::fs;
use std::io::{self, ErrorKind, Read, Write};
use std::test::Fail;

/// A stream whose first call is interrupted. The second takes or gives one byte, and each later one
/// fails.
#[derive(Drop)]
struct Fitful {
    calls: u8,
}

impl Fitful {
    fn next_call(&mut self) -> io::Result<()> {
        self.calls = self.calls.saturating_add(1);
        match self.calls {
            1 => Err(io::Error::from(ErrorKind::Interrupted)),
            2 => Ok(()),
            _ => Err(io::Error::from(ErrorKind::BrokenPipe)),
        }
    }
}

impl Read for Fitful {
    fn read(&mut self, buf: &mut [u8]) -> io::Result<usize> {
        self.next_call()?;
        buf.fill(b'a');
        Ok(buf.len().min(1))
    }
}

impl Write for Fitful {
    fn write(&mut self, buf: &[u8]) -> io::Result<usize> {
        self.next_call()?;
        Ok(buf.len().min(1))
    }

    fn flush(&mut self) -> io::Result<()> {
        Ok(())
    }
}

#[test]
fn streams(rt: HostRuntime) -> Result<(), Fail> {
    let mut buffer = [0; 2];
    let mut source = StreamSource::new(Fitful { calls: 0 });
    assert_eq!(rt; source.read(&mut buffer).unwrap_or(9), 1);
    assert!(rt; source.read(&mut buffer).is_err());
    let mut sink = StreamSink::new(Fitful { calls: 0 });
    assert_eq!(rt; sink.write(b"ab").unwrap_or(9), 1);
    assert!(rt; sink.write(b"b").is_err());
    let mut full = StreamSink::new(&mut buffer[..1]);
    assert_eq!(rt; full.write(b"ab").unwrap_or(9), 1);
    assert!(rt; full.write(b"b").is_err());
    assert_eq!(rt; full.write(b"").unwrap_or(9), 0);
    Ok(())
}

/// The length of the file that a library finds, `None` where it finds none.
fn length_of<L: Library>(
    alloc: Global,
    library: &mut L,
    name: &str,
) -> Result<Option<usize>, LibraryFault> {
    let found = library.fetch(alloc, name)?;
    Ok(found.map(|file| file.len()))
}

#[test]
fn files(rt: HostRuntime) -> Result<(), Fail> {
    let alloc = rt.alloc();
    fs::write(&rt, "f", "abc")?;
    let long = vec![in alloc; b' '; FETCH_MAX + 1]?;
    fs::write(&rt, "long", long.as_slice())?;
    let too_long_name = vec![in alloc; b'n'; 300]?;
    let too_long_name = str::from_utf8(&too_long_name)?;
    let mut library = FileLibrary::new(&rt);
    for (name, found) in [
        ("f", Ok(Some(3))),
        ("long", Ok(Some(FETCH_MAX))),
        ("z", Ok(None)),
        // A file is no folder, so nothing may follow its name.
        ("f/z", Ok(None)),
        // A folder can be opened, and not read.
        (".", Err(LibraryFault::Failed)),
        (too_long_name, Err(LibraryFault::Failed)),
    ] {
        assert!(rt; length_of(alloc, &mut library, name) == found, "{name}");
    }
    Ok(())
}

/// The arguments of this command line, which follow the program's name.
fn words_in(alloc: Global, line: &str) -> Result<Words, Fail> {
    let mut texts = Vec::new(alloc);
    for text in line.split_whitespace() {
        texts.push(String::from_str(alloc, text)?)?;
    }
    Ok(words_behind_first(alloc, texts.into_iter())?)
}

#[test]
fn words(rt: HostRuntime) -> Result<(), Fail> {
    let alloc = rt.alloc();
    let words = words_in(alloc, "baggage trim 10")?;
    assert_eq!(rt; words.len(), 2);
    assert!(rt; matches!(words.get(0), Some(word) if word.as_str() == "trim"));
    assert!(rt; matches!(words.get(1), Some(word) if word.as_str() == "10"));
    assert!(rt; words_in(alloc, "")?.is_empty());
    Ok(())
}

/// Two values of one field.
const LINE: &str = "02f800050000000007050000000009\n";

/// Calls: the arguments, the input, the status, and what they write to the output and to the
/// errors.
static CALLS: [(&str, &str, u8, &str, &str); 9] = [
    ("baggage trim 10", LINE, 0, "02f80005000000000700\n", ""),
    ("baggage trim", LINE, 7, "", "words refused\n"),
    (
        "baggage check z.bdl Req",
        "",
        1,
        "",
        "definition z.bdl 1:1 NoFile\n",
    ),
    ("baggage check q.bdl Req", "", 0, "ok 2\n", ""),
    ("baggage check two.bdl Two", "", 0, "ok 4\n", ""),
    ("baggage check . Req", "", 4, "", "library failed\n"),
    (
        "baggage decode q.bdl Req",
        LINE,
        0,
        "bytes 02f800050000000007050000000009\nid exact 7\ntags exact {}\n",
        "",
    ),
    (
        "baggage decode q.bdl Req",
        "02f8000400000007",
        3,
        "",
        "context line 1 offset 3 IllTyped\n",
    ),
    (
        "baggage run q.bdl Req",
        "service a all\nstart 0 a\nset 1 0 tags \"a\"\nshow 1\n",
        0,
        "step 1\nbytes 02f801020061\nid exact -\ntags exact {\"a\"}\n",
        "",
    ),
];

#[test]
fn the_program_hands_on_its_status(rt: HostRuntime) -> Result<(), Fail> {
    let alloc = rt.alloc();
    fs::write(
        &rt,
        "q.bdl",
        "bag Req { fixed32 id = 0; set<string> tags = 1; }",
    )?;
    fs::write(
        &rt,
        "two.bdl",
        "import \"q.bdl\"; bag Two { Req a = 0; Req b = 1; }",
    )?;
    for (line, input, status, output, errors) in &CALLS {
        let words = words_in(alloc, line)?;
        let (mut out, mut errs) = (Vec::new(alloc), Vec::new(alloc));
        let answer = run(&rt, alloc, Ok(words), input.as_bytes(), &mut out, &mut errs);
        assert_eq!(rt; answer, *status, "{line}");
        assert_eq!(rt; out.as_slice(), output.as_bytes(), "{line}");
        assert_eq!(rt; errs.as_slice(), errors.as_bytes(), "{line}");
    }
    let (mut out, mut errs) = (Vec::new(alloc), Vec::new(alloc));
    let answer = run(
        &rt,
        alloc,
        Err(Memory),
        LINE.as_bytes(),
        &mut out,
        &mut errs,
    );
    assert_eq!(rt; answer, 6);
    assert!(rt; out.is_empty());
    assert_eq!(rt; errs.as_slice(), b"memory\n".as_slice());
    Ok(())
}
