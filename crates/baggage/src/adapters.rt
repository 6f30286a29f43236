//! Standard input, output and error, the files of the system, and the arguments of the command
//! line.

ghost use Rattle.std.specs.Prelude.{◌≡◌, ◌≢◌, ◌≤◌, ◌⊎◌, ◌↔◌, [], drop, length, map, string_bytes, take, IfOk, IfErr, IfSome, IsErr, IsOkAnd, IsTrue, None};
ghost use Rattle.std.specs.Io.{ReadsAtMost, WritesAtMost};
ghost use Rattle.std.specs.Io.KnownBytes.{ReadConsumes, WriteAppends};
ghost use Rattle.std.specs.IoError.{error_kind};
ghost use Rattle.std.specs.Vec.Iter.{into_iter_items};
ghost use Rattle.outside.specs.Faults.{faults_in, faults_in_range};
ghost use Rattle.outside.specs.declared.TheConstants.{FETCH_MAX};

use outside::{
    FETCH_MAX, Failed, FaultCount, Library, LibraryFault, Memory, ReadFault, Sink, Source, Text,
    Words, read_all,
};
use std::alloc::Global;
use std::env::{self, Args, Env};
use std::fs::File;
use std::io::{self, ErrorKind, Read, Write};
use std::rt::Files;

#[cfg(test)]
mod tests;

/// A source over a reader.
#[derive(Drop)]
pub struct StreamSource<R: Drop> {
    inner: R,
    faults: FaultCount,
}

impl<R: Read + Drop> StreamSource<R> {
    /// A source that has counted no fault.
    pub fn new(inner: R) -> StreamSource<R>
        ensures left { ⟦<StreamSource<R> as Source>⟧.left result ≡ R.remaining inner }
        ensures faults { ⟦<StreamSource<R> as Source>⟧.faults result ≡ 0 }
    {
        StreamSource {
            inner,
            faults: FaultCount::new(),
        }
    }
}

/// Reads once, and again for as long as a signal interrupts it.
fn read_uninterrupted<R: Read>(reader: &mut R, into: &mut [u8]) -> io::Result<usize>
    ensures bound { ReadsAtMost result into.new }
    ensures bytes { ReadConsumes (R.remaining reader.old) (R.remaining reader.new) result into.new }
{
    for _ in 1..u64::MAX {
        match reader.read(into) {
            Err(error) if error.kind() == ErrorKind::Interrupted => {}
            result => return result,
        }
    }
    reader.read(into)
}

impl<R: Read + Drop> Source for StreamSource<R> {
    ghost left = { λ source. R.remaining source.inner };

    ghost faults = { λ source. faults_in source.faults };

    ghost counted = { λ source. faults_in_range source.faults };

    fn read(&mut self, into: &mut [u8]) -> Result<usize, Failed> {
        match read_uninterrupted(&mut self.inner, into) {
            Ok(count) => Ok(count),
            Err(_) => {
                self.faults.rise();
                Err(Failed)
            }
        }
    }
}

/// A sink over a writer.
#[derive(Drop)]
pub struct StreamSink<W: Drop> {
    inner: W,
    faults: FaultCount,
}

impl<W: Write + Drop> StreamSink<W> {
    /// A sink that has counted no fault.
    pub fn new(inner: W) -> StreamSink<W>
        ensures written { ⟦<StreamSink<W> as Sink>⟧.written result ≡ W.contents inner }
        ensures faults { ⟦<StreamSink<W> as Sink>⟧.faults result ≡ 0 }
    {
        StreamSink {
            inner,
            faults: FaultCount::new(),
        }
    }
}

/// Writes once, and again for as long as a signal interrupts it.
fn write_uninterrupted<W: Write>(writer: &mut W, piece: &[u8]) -> io::Result<usize>
    ensures bound { WritesAtMost result piece.now }
    ensures bytes { WriteAppends (W.contents writer.old) (W.contents writer.new) result piece.now }
{
    for _ in 1..u64::MAX {
        match writer.write(piece) {
            Err(error) if error.kind() == ErrorKind::Interrupted => {}
            result => return result,
        }
    }
    writer.write(piece)
}

impl<W: Write + Drop> Sink for StreamSink<W> {
    ghost written = { λ sink. W.contents sink.inner };

    ghost faults = { λ sink. faults_in sink.faults };

    ghost counted = { λ sink. faults_in_range sink.faults };

    fn write(&mut self, piece: &[u8]) -> Result<usize, Failed> {
        match write_uninterrupted(&mut self.inner, piece) {
            Ok(count) if 0 < count || piece.is_empty() => Ok(count),
            _ => {
                self.faults.rise();
                Err(Failed)
            }
        }
    }
}

/// The files of the system, by path. It tells no content.
#[derive(Drop)]
pub struct FileLibrary<'a, R: Files> {
    system: &'a R,
    faults: FaultCount,
}

impl<'a, R: Files> FileLibrary<'a, R> {
    /// A library that has counted no fault.
    pub fn new(system: &'a R) -> FileLibrary<'a, R>
        ensures { ⟦<FileLibrary<'a, R> as Library>⟧.faults result ≡ 0 }
    {
        FileLibrary {
            system,
            faults: FaultCount::new(),
        }
    }
}

/// Whether a file couldn't be opened because there is none of that path: nothing has the name, or
/// what should be a folder is a file.
fn is_missing(error: &io::Error) -> bool
    ensures { IsTrue result ↔ ((error_kind error.now ≡ ErrorKind.NotFound)
        ⊎ (error_kind error.now ≡ ErrorKind.NotADirectory)) }
{
    matches!(error.kind(), ErrorKind::NotFound | ErrorKind::NotADirectory)
}

/// The first `FETCH_MAX` bytes of an opened file, or all of a shorter one.
fn read_front<F: Read + Drop>(alloc: Global, file: F) -> Result<Vec<u8>, ReadFault>
    ensures bound { IfOk result (λ bytes. length bytes.items ≤ FETCH_MAX) }
    ensures front { IfOk result
        (λ bytes. IfSome (F.remaining file) (λ content. bytes.items ≡ take FETCH_MAX content)) }
{
    let mut front = StreamSource::new(file.take(FETCH_MAX as u64));
    read_all(alloc, &mut front, FETCH_MAX)
}

impl<'a, R: Files> Library for FileLibrary<'a, R> {
    ghost files = { λ _. None };

    ghost faults = { λ library. faults_in library.faults };

    ghost counted = { λ library. faults_in_range library.faults };

    fn fetch(&mut self, alloc: Global, name: &str) -> Result<Option<Vec<u8>>, LibraryFault> {
        let front = match File::open(self.system, name) {
            Ok(file) => read_front(alloc, file),
            Err(error) if is_missing(&error) => return Ok(None),
            Err(error) if error.kind() == ErrorKind::OutOfMemory => Err(ReadFault::Memory),
            Err(_) => Err(ReadFault::Failed),
        };
        match front {
            Ok(bytes) => Ok(Some(bytes)),
            Err(ReadFault::Memory) => Err(LibraryFault::Memory),
            Err(ReadFault::Failed) | Err(ReadFault::TooLong) => {
                self.faults.rise();
                Err(LibraryFault::Failed)
            }
        }
    }
}

/// The arguments after the first of these texts.
fn words_behind_first(alloc: Global, mut texts: Args) -> Result<Words, Memory>
    ensures { IfOk result (λ words. words ≡ drop 1 (map string_bytes (into_iter_items texts))) }
{
    let mut words = Words::new(alloc);
    let _program = texts.next();
    for text in texts {
        words.push(Text::from_string(text)?)?;
    }
    Ok(words)
}

/// The arguments after the first of these texts, which is the program's name. Arguments that aren't
/// all UTF-8 give none, and no command has that form.
fn words_in(alloc: Global, arguments: io::Result<Args>) -> Result<Words, Memory>
    ensures words { IfOk arguments (λ texts. IfOk result
        (λ words. words ≡ drop 1 (map string_bytes (into_iter_items texts)))) }
    ensures none { IfErr arguments (λ error. error_kind error ≢ ErrorKind.OutOfMemory
        → IsOkAnd result (λ words. words ≡ [])) }
    ensures wanting { IfErr arguments
        (λ error. error_kind error ≡ ErrorKind.OutOfMemory → IsErr result) }
{
    match arguments {
        Ok(texts) => words_behind_first(alloc, texts),
        Err(error) if error.kind() == ErrorKind::OutOfMemory => Err(Memory),
        Err(_) => Ok(Words::new(alloc)),
    }
}

/// The arguments of the command line without the program's name. Where one of them isn't UTF-8
/// there are none.
pub fn words_of(rt: &(impl Env + AllocGlobal)) -> Result<Words, Memory> {
    words_in(rt.alloc(), env::args(rt))
}
