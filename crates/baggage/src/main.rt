//! Baggage that keeps its meaning through every service: the program.
#![tactic(auto)]

mod adapters;

use adapters::{FileLibrary, StreamSink, StreamSource, words_of};
use baggage_cli::{Notice, baggage_top, notify};
use outside::{Memory, Open, Words};
use std::alloc::Global;
use std::io::{Read, Write};
use std::process::ExitCode;
use std::rt::Files;
use std::thread::Threads;

fn main(rt: HostRuntime) -> ExitCode {
    let words = words_of(&rt);
    let status = run(
        &rt,
        rt.alloc(),
        words,
        rt.stdin().lock(),
        rt.stdout(),
        rt.stderr(),
    );
    ExitCode::from(status)
}

/// Does what the arguments ask for, over the files of the system and these streams. The answer is
/// the status that the program ends with.
fn run<R, I, O, E>(
    system: &R,
    alloc: Global,
    words: Result<Words, Memory>,
    input: I,
    output: O,
    errors: E,
) -> u8
where
    R: Threads + Sync + Files,
    I: Read + Drop,
    O: Write + Drop,
    E: Write + Drop,
{
    let mut library = FileLibrary::new(system);
    let mut source = StreamSource::new(input);
    let mut out = StreamSink::new(output);
    let mut errs = StreamSink::new(errors);
    match words {
        Ok(words) => baggage_top(
            system,
            alloc,
            &Open,
            &words,
            &mut library,
            &mut source,
            &mut out,
            &mut errs,
        ),
        Err(Memory) => notify(&mut errs, Notice::Memory),
    }
}
