//! Whether a table may take the place of an older one.

ghost use Rattle.std.specs.Prelude.{◌≡◌, IfOk, IfErr};
ghost use Rattle.table_calls.specs.Evolution as spec;
ghost use Rattle.table_calls.specs.Evolution.{ComparesInto, ComparesUnder, IsCompared};

use crate::refusals::TableRefusal;
use crate::tables::table_at;
use byte_calls::{TooShort, write_front};
use def_evolve::{Verdict, evolve};
use field_table::Table;
use outside::Memory;
use std::alloc::Global;

/// What becomes of the fields of an old table under a new one.
#[derive(Clone, Copy, Debug, PartialEq, Eq)]
pub enum Change {
    /// Each field that both have may become what the new one says.
    Fits,
    /// The first field that may not is of another variant.
    Shape,
    /// The first field that may not is a map whose keys are of a kind that isn't wider.
    Key,
    /// The first field that may not has values of a kind that isn't wider.
    Kind,
}

/// What the verdict says of the fields.
fn change_of(verdict: &Verdict) -> Change
    ensures { result ≡ spec.change_of verdict.now }
{
    match verdict {
        Verdict::Fits { .. } => Change::Fits,
        Verdict::Breaks { change, .. } => match change {
            def_evolve::Change::Shape => Change::Shape,
            def_evolve::Change::Key => Change::Key,
            def_evolve::Change::Kind => Change::Kind,
        },
    }
}

/// The line of a verdict.
fn verdict_line(alloc: Global, verdict: &Verdict) -> Result<Vec<u8>, Memory>
    ensures { IfOk result (λ line. line.items ≡ spec.verdict_text_line verdict.now) }
{
    Ok(format!(in alloc; "{verdict}\n")?.into_bytes())
}

/// What becomes of the fields of a table under a newer one, and the line that says it.
fn compared(alloc: Global, old: &Table, next: &Table) -> Result<(Change, Vec<u8>), Memory>
    ensures { IfOk result (λ answer. IsCompared old.now next.now answer.0 answer.1.items) }
{
    let verdict = evolve(alloc, old, next)?;
    let line = verdict_line(alloc, &verdict)?;
    Ok((change_of(&verdict), line))
}

/// Compares a table with the one that is to take its place, as [`evolve_into`] does, where both were
/// read before.
pub fn evolve_under(
    alloc: Global,
    old: &Table,
    next: &Table,
    room: &mut [u8],
) -> Result<(Change, usize), TableRefusal>
    ensures { ComparesUnder old.now next.now room.old room.new result }
{
    let (change, line) = compared(alloc, old, next)?;
    match write_front(&line, room) {
        Ok(size) => Ok((change, size)),
        Err(TooShort { size }) => Err(TableRefusal::Room { size }),
    }
}

/// Compares a table with the one that is to take its place, writes the line of that at the
/// beginning of `room`, and answers what it says and how many bytes it has. The line is `ok` and
/// how many slots are in both, or `breaks`, the numbers on the way to the first field that may not
/// become what the next table says, and the reason. It ends with a line feed.
///
/// `old` and `next` are tables as `table_text::print_table` writes them. [`TableRefusal`] has what
/// may be wrong, in the order in which it is looked for; then `room` stays.
pub fn evolve_into(
    alloc: Global,
    old: &[u8],
    next: &[u8],
    room: &mut [u8],
) -> Result<(Change, usize), TableRefusal>
    ensures { ComparesInto old.now next.now room.old room.new result }
{
    let old = table_at(alloc, 0, old)?;
    let next = table_at(alloc, 1, next)?;
    evolve_under(alloc, &old, &next, room)
}
