//! A row, run.

use crate::failing::{run_reads, run_writes};
use crate::objects::{
    Objects, asked_of, call, left_of, library_of, sink_of, size_of, source_of, words_of,
};
use crate::tabled::run_tabled;
use outside::MemorySink;
use row_files::{Field, Reason, Row, RowFault, Told};
use std::alloc::Global;
use std::thread::Threads;

/// What a row calls.
#[derive(Clone, Copy)]
enum Call {
    Program,
    Tabled,
    Reads,
    Writes,
}

impl Call {
    /// What the row calls.
    fn of(row: Row<'_>) -> Result<Call, RowFault> {
        let field = row.needed("call")?;
        match field.text()? {
            "program" => Ok(Call::Program),
            "tabled" => Ok(Call::Tabled),
            "reads" => Ok(Call::Reads),
            "writes" => Ok(Call::Writes),
            _ => Err(field.fault(Reason::Word)),
        }
    }

    /// The names of the fields that such a row may have once.
    fn names(self) -> &'static [&'static str] {
        match self {
            Call::Program => &[
                "call",
                "words",
                "input",
                "read_size",
                "out_room",
                "errs_room",
                "status",
                "out",
                "out_begins",
                "out_ends",
                "errs",
                "left",
                "asked",
            ],
            Call::Tabled => &["call", "bag", "input", "out", "errs"],
            Call::Reads => &[
                "call", "words", "input", "object", "uses", "status", "out", "errs",
            ],
            Call::Writes => &[
                "call", "words", "input", "object", "taken", "status", "errs",
            ],
        }
    }
}

/// The numbers of the uses of an object that fail.
fn failing_of(alloc: Global, row: Row<'_>, object: &str) -> Result<Vec<u64>, RowFault> {
    let mut numbers = Vec::new(alloc);
    for field in row.own {
        if let Some(number) = failing_use(field, object)? {
            numbers.push(number)?;
        }
    }
    Ok(numbers)
}

/// The number of the use of this object that the field lets fail; `None` where it is another field
/// or another object.
fn failing_use(field: &Field<'_>, object: &str) -> Result<Option<u64>, RowFault> {
    if field.name() != "fail" {
        return Ok(None);
    }
    let Some((name, number)) = field.text()?.split_once(' ') else {
        return Err(field.fault(Reason::Number));
    };
    if !matches!(name, "library" | "source" | "out" | "errs") {
        return Err(field.fault(Reason::Word));
    }
    match number.parse::<u64>() {
        Ok(number) if name == object => Ok(Some(number)),
        Ok(_) => Ok(None),
        Err(_) => Err(field.fault(Reason::Number)),
    }
}

/// A sink of the row.
fn sink_named(
    alloc: Global,
    row: Row<'_>,
    object: &str,
    room: usize,
    piece: usize,
) -> Result<MemorySink, RowFault> {
    let failing = failing_of(alloc, row, object)?;
    sink_of(alloc, room, piece, failing)
}

/// The objects of a row.
fn objects_of(alloc: Global, row: Row<'_>) -> Result<Objects, RowFault> {
    let out_room = size_of(row, "out_room", 1 << 19)?;
    let errs_room = size_of(row, "errs_room", 256)?;
    let piece = size_of(row, "read_size", 61)?;
    let library = library_of(alloc, row, failing_of(alloc, row, "library")?)?;
    let source = source_of(
        alloc,
        row.value("input"),
        piece,
        failing_of(alloc, row, "source")?,
    )?;
    let out = sink_named(alloc, row, "out", out_room, 5)?;
    let errs = sink_named(alloc, row, "errs", errs_room, 11)?;
    Ok(Objects {
        library,
        source,
        out,
        errs,
    })
}

/// Reports where the output differs: as a whole, or how it begins and ends where the row has that.
fn expect_out(row: Row<'_>, out: &[u8], told: &mut Told<'_>) -> Result<(), RowFault> {
    if !row.has("out_begins") && !row.has("out_ends") {
        told.expect_bytes("out", out, row.value("out"))?;
        return Ok(());
    }
    let begins = row.value("out_begins");
    let ends = row.value("out_ends");
    let front = begins.len().min(out.len());
    let back = out.len() - ends.len().min(out.len());
    told.expect_bytes("out_begins", &out[..front], begins)?;
    told.expect_bytes("out_ends", &out[back..], ends)?;
    Ok(())
}

/// Reports where the names that were asked for differ.
fn expect_asked(
    alloc: Global,
    row: Row<'_>,
    objects: &Objects,
    told: &mut Told<'_>,
) -> Result<(), RowFault> {
    if row.has("asked") {
        let asked = asked_of(alloc, &objects.library)?;
        told.expect_bytes("asked", asked.as_bytes(), row.value("asked"))?;
    }
    Ok(())
}

/// Runs a row that calls the program once.
fn run_program<R: Threads + Sync>(
    rt: &R,
    alloc: Global,
    row: Row<'_>,
    told: &mut Told<'_>,
) -> Result<(), RowFault> {
    let wanted = row.needed("status")?.number()?;
    let mut objects = objects_of(alloc, row)?;
    let words = words_of(alloc, row)?;
    let status = call(rt, alloc, &words, &mut objects);
    told.expect_number("status", u64::from(status), wanted)?;
    expect_out(row, objects.out.taken(), told)?;
    told.expect_bytes("errs", objects.errs.taken(), row.value("errs"))?;
    expect_asked(alloc, row, &objects, told)?;
    let left = left_of(alloc, &mut objects.source)?;
    told.expect_bytes("left", left.as_slice(), row.value("left"))?;
    Ok(())
}

/// Runs a row, and reports what differs.
pub fn run_row<R: Threads + Sync>(
    rt: &R,
    alloc: Global,
    row: Row<'_>,
    told: &mut Told<'_>,
) -> Result<(), RowFault> {
    let kind = Call::of(row)?;
    row.check_names(kind.names(), &["file", "word", "fail"])?;
    match kind {
        Call::Program => run_program(rt, alloc, row, told),
        Call::Tabled => run_tabled(rt, alloc, row, told),
        Call::Reads => run_reads(rt, alloc, row, told),
        Call::Writes => run_writes(rt, alloc, row, told),
    }
}
