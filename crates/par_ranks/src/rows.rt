//! Rows of steps, which don't need each other.

ghost use Rattle.std.specs.Prelude.{◌≡◌, ◌+◌, ◌/◌, ◌%◌, ◌<◌, ℕ, min, length, slice_index_or, All, IfOk, OnOk};
ghost use Rattle.std.specs.Fork.{slice_chunk};
ghost use Rattle.trace_model.specs.Graphs.{IsOfTable};
ghost use Rattle.par_ranks.specs.Rows.{AreIndependent, AreMade, ArePut, IsRowRun};

use crate::chunks::chunk_count;
use crate::steps::{Run, run_chunk, run_in_turn};
use atom_list::Context;
use outside::{Gate, Memory};
use std::thread::{Threads, map_chunks};

/// The lists of the steps of each chunk of a row, a thread for each chunk.
fn run_chunks<R: Threads + Sync, G: Gate>(
    run: &Run<R, G>,
    lists: &[Context],
    row: &[usize],
    size: usize,
) -> Result<Vec<Result<Vec<Context>, Memory>>, Memory>
    requires size { 0 < size }
    requires table { IsOfTable run.now.table.now run.now.graph.now }
    requires lists { length lists.now ≡ length run.now.graph.now.steps }
    requires row { All (λ step. step < length run.now.graph.now.steps) row.now }
    ensures as_many { IfOk result
        (λ parts. length parts.items ≡ length row.now / size + min 1 (length row.now % size)) }
    ensures each { IfOk result (λ parts. (n : ℕ) (d : _) → n < length parts.items →
        IfOk (slice_index_or parts.items n d)
        (λ made. AreMade run.now.table.now run.now.graph.now lists.now
        (slice_chunk row.now size n) made.items)) }
{
    let parts = map_chunks(
        run.rt,
        run.alloc,
        row,
        size,
        &|_, chunk: &[usize]| -> Result<Vec<Context>, Memory>
            requires table { IsOfTable run.now.table.now run.now.graph.now }
            requires lists { length lists.now ≡ length run.now.graph.now.steps }
            requires steps { All (λ step. step < length run.now.graph.now.steps) chunk.now }
            ensures { IfOk result
                (λ made. AreMade run.entry.now.table.now run.entry.now.graph.now lists.entry.now chunk.now made.items) }
        { run_chunk(run, lists, chunk) },
    )?;
    Ok(parts)
}

/// The lists of all steps of a row, from those of its chunks.
fn gather<R, G>(
    run: &Run<R, G>,
    lists: &[Context],
    row: &[usize],
    size: usize,
    parts: Vec<Result<Vec<Context>, Memory>>,
) -> Result<Vec<Context>, Memory>
    requires size { 0 < size }
    requires as_many { length parts.items ≡ length row.now / size + min 1 (length row.now % size) }
    requires each { (n : ℕ) (d : _) → n < length parts.items →
        IfOk (slice_index_or parts.items n d)
        (λ made. AreMade run.now.table.now run.now.graph.now lists.now
        (slice_chunk row.now size n) made.items) }
    ensures { IfOk result
        (λ made. AreMade run.now.table.now run.now.graph.now lists.now row.now made.items) }
{
    let mut made = Vec::with_capacity(run.alloc, row.len())?;
    for part in parts {
        let mut part = part?;
        made.append(&mut part)?;
    }
    Ok(made)
}

/// Puts lists to steps, whose places among all lists are their numbers.
fn put(lists: &mut Vec<Context>, steps: &[usize], made: Vec<Context>)
    requires as_many { length made.items ≡ length steps.now }
    requires within { All (λ step. step < length lists.old.items) steps.now }
    ensures { ArePut steps.now made.items lists.old.items lists.new.items }
{
    let mut made = made;
    while let Some(list) = made.pop() {
        lists[steps[made.len()]] = list;
    }
}

/// Runs the steps of a row in `chunks` chunks, beside one another.
fn run_in_chunks<R: Threads + Sync, G: Gate>(
    run: &Run<R, G>,
    lists: &mut Vec<Context>,
    row: &[usize],
    chunks: usize,
) -> Result<(), Memory>
    requires table { IsOfTable run.now.table.now run.now.graph.now }
    requires lists { length lists.old.items ≡ length run.now.graph.now.steps }
    requires row { AreIndependent run.now.graph.now row.now }
    requires chunks { 0 < chunks }
    ensures { OnOk result
        (IsRowRun run.now.table.now run.now.graph.now row.now lists.old.items lists.new.items) }
{
    let size = row.len().div_ceil(chunks).max(1);
    let pool = lists.as_slice();
    let parts = run_chunks(run, pool, row, size)?;
    let made = gather(run, pool, row, size, parts)?;
    put(lists, row, made);
    Ok(())
}

/// Runs the steps of a row.
pub(crate) fn run_row<R: Threads + Sync, G: Gate>(
    run: &Run<R, G>,
    lists: &mut Vec<Context>,
    row: &[usize],
) -> Result<(), Memory>
    requires table { IsOfTable run.now.table.now run.now.graph.now }
    requires lists { length lists.old.items ≡ length run.now.graph.now.steps }
    requires row { AreIndependent run.now.graph.now row.now }
    ensures { OnOk result
        (IsRowRun run.now.table.now run.now.graph.now row.now lists.old.items lists.new.items) }
{
    let chunks = chunk_count(run.graph, lists.as_slice(), row);
    if chunks < 2 {
        run_in_turn(run, lists, row)
    } else {
        run_in_chunks(run, lists, row, chunks)
    }
}
