//! Calls one of whose objects fails.

use fixture_program::{FILES, Objects, call, library_of};
use outside::{MemorySource, Open};
use std::test::Fail;

/// The block of an empty context.
const BLOCK: &str =
    "bytes -\nid exact -\ntags exact {}\nhops exact 0{}\ndebug exact off\nload exact {}\n";

/// Only the first fetch fails.
#[test]
fn a_library_serves_after_a_failure(rt: HostRuntime) -> Result<(), Fail> {
    let alloc = rt.alloc();
    let mut objects = Objects::new(alloc, FILES, b"-\n")?;
    objects.library = library_of(alloc, FILES, &[0])?;
    let line = "decode q.bdl Req";
    assert_eq!(rt; call(&rt, alloc, &Open, line, &mut objects)?, 4);
    assert_eq!(rt; call(&rt, alloc, &Open, line, &mut objects)?, 0);
    assert_eq!(rt; objects.out.taken(), BLOCK.as_bytes());
    assert_eq!(rt; objects.errs.taken(), b"library failed\n".as_slice());
    Ok(())
}

/// The read that fails, from 0, of a source that gives 4,096 bytes a read and has two more than the
/// longest input, the status, and what is reported. The reads before the first of these give the
/// longest input, it gives one byte more, and then none is read.
static LONG_SOURCES: [(u64, u8, &str); 2] = [
    (4096, 4, "source failed\n"),
    (4097, 2, "input line 0 TooLong\n"),
];

#[test]
fn a_long_source_fails(rt: HostRuntime) -> Result<(), Fail> {
    let alloc = rt.alloc();
    for &(read, status, text) in &LONG_SOURCES {
        let mut objects = Objects::new(alloc, FILES, b"")?;
        let content = vec![in alloc; b'#'; 16_777_218]?;
        objects.source = MemorySource::new(content, 4096, vec![in alloc; read]?);
        let told = call(&rt, alloc, &Open, "merge", &mut objects)?;
        assert_eq!(rt; told, status, "{read}");
        assert_eq!(rt; objects.out.taken(), b"".as_slice(), "{read}");
        assert_eq!(rt; objects.errs.taken(), text.as_bytes(), "{read}");
    }
    Ok(())
}
