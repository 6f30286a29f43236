//! Calls in which each use of an object fails in turn.

use crate::objects::{Objects, call, left_of, library_of, sink_of, source_of, words_of};
use row_files::{Reason, Row, RowFault, Told};
use std::alloc::Global;
use std::thread::Threads;

/// What fails.
#[derive(Clone, Copy, PartialEq, Eq)]
enum Object {
    Library,
    Source,
    Out,
    Errs,
}

impl Object {
    /// The object of a row.
    fn of(row: Row<'_>) -> Result<Object, RowFault> {
        let field = row.needed("object")?;
        match field.text()? {
            "library" => Ok(Object::Library),
            "source" => Ok(Object::Source),
            "out" => Ok(Object::Out),
            "errs" => Ok(Object::Errs),
            _ => Err(field.fault(Reason::Word)),
        }
    }

    /// The numbers of the uses of `other` that fail: this one where it is that object.
    fn failing(self, alloc: Global, other: Object, number: u64) -> Result<Vec<u64>, RowFault> {
        let mut numbers = Vec::new(alloc);
        if self == other {
            numbers.push(number)?;
        }
        Ok(numbers)
    }

    /// The most bytes that the source gives at a time: one where it is the one that fails.
    fn read_size(self) -> usize {
        match self {
            Object::Source => 1,
            _ => 61,
        }
    }
}

/// The objects of a row. The use of this number of one of them fails, and sinks take a byte at a
/// time.
fn objects_failing(
    alloc: Global,
    row: Row<'_>,
    object: Object,
    number: u64,
) -> Result<Objects, RowFault> {
    let fetches = object.failing(alloc, Object::Library, number)?;
    let reads = object.failing(alloc, Object::Source, number)?;
    let outs = object.failing(alloc, Object::Out, number)?;
    let errs = object.failing(alloc, Object::Errs, number)?;
    Ok(Objects {
        library: library_of(alloc, row, fetches)?,
        source: source_of(alloc, row.value("input"), object.read_size(), reads)?,
        out: sink_of(alloc, 256, 1, outs)?,
        errs: sink_of(alloc, 256, 1, errs)?,
    })
}

/// Calls the program with an object whose use of this number fails, and reports where it doesn't
/// write these or has another status than the row.
fn call_failing<R: Threads + Sync>(
    rt: &R,
    alloc: Global,
    row: Row<'_>,
    objects: &mut Objects,
    out: &[u8],
    errs: &[u8],
    told: &mut Told<'_>,
) -> Result<(), RowFault> {
    let words = words_of(alloc, row)?;
    let status = call(rt, alloc, &words, objects);
    told.expect_number("status", u64::from(status), row.needed("status")?.number()?)?;
    told.expect_bytes("out", objects.out.taken(), out)?;
    told.expect_bytes("errs", objects.errs.taken(), errs)?;
    Ok(())
}

/// What must be left of the input where the use of this number fails: all where the library fails,
/// and else what follows the bytes that were read.
fn left_at(input: &[u8], object: Object, number: u64) -> &[u8] {
    match usize::try_from(number) {
        Ok(number) if object == Object::Source => input.get(number..).unwrap_or(&[]),
        _ => input,
    }
}

/// Runs a row of reads with the one of this number failing.
fn run_read<R: Threads + Sync>(
    rt: &R,
    alloc: Global,
    row: Row<'_>,
    object: Object,
    number: u64,
    told: &mut Told<'_>,
) -> Result<(), RowFault> {
    let mut objects = objects_failing(alloc, row, object, number)?;
    let out = row.value("out");
    let errs = row.value("errs");
    call_failing(rt, alloc, row, &mut objects, out, errs, told)?;
    let left = left_of(alloc, &mut objects.source)?;
    told.expect_bytes(
        "left",
        left.as_slice(),
        left_at(row.value("input"), object, number),
    )?;
    Ok(())
}

/// Runs a row of a library or a source whose first uses fail, each in a call of its own, up to the
/// first that differs.
pub fn run_reads<R: Threads + Sync>(
    rt: &R,
    alloc: Global,
    row: Row<'_>,
    told: &mut Told<'_>,
) -> Result<(), RowFault> {
    let object = Object::of(row)?;
    if !matches!(object, Object::Library | Object::Source) {
        return Err(row.needed("object")?.fault(Reason::Word));
    }
    for number in 0..row.needed("uses")?.number()? {
        if !told.has_told() {
            run_read(rt, alloc, row, object, number, told)?;
        }
    }
    Ok(())
}

/// Runs a row of a sink whose write of this number fails. It takes a byte a write, so it has this
/// prefix of the text.
fn run_write<R: Threads + Sync>(
    rt: &R,
    alloc: Global,
    row: Row<'_>,
    object: Object,
    front: &[u8],
    told: &mut Told<'_>,
) -> Result<(), RowFault> {
    let mut objects = objects_failing(alloc, row, object, front.len() as u64)?;
    match object {
        Object::Out => call_failing(rt, alloc, row, &mut objects, front, row.value("errs"), told),
        _ => call_failing(rt, alloc, row, &mut objects, b"", front, told),
    }
}

/// Runs a row of a sink whose writes fail, each in a call of its own, up to the first that differs.
pub fn run_writes<R: Threads + Sync>(
    rt: &R,
    alloc: Global,
    row: Row<'_>,
    told: &mut Told<'_>,
) -> Result<(), RowFault> {
    let object = Object::of(row)?;
    if !matches!(object, Object::Out | Object::Errs) {
        return Err(row.needed("object")?.fault(Reason::Word));
    }
    let taken = row.needed("taken")?.value();
    for number in 0..taken.len() {
        if !told.has_told() {
            run_write(rt, alloc, row, object, &taken[..number], told)?;
        }
    }
    Ok(())
}
