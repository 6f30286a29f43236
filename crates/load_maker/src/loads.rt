//! The load: its table, and its text.
//!
//! A round has 42 steps: five in each of its eight lanes, one that joins the lanes, and one that
//! brings what they say back to the service at which the round began.

ghost use Rattle.std.specs.Prelude.{◌≡◌, ◌++◌, ◌*◌, ◌<◌, ◌≤◌, [], ◌∷◌, IfOk, OnOk, string_bytes};
ghost use Rattle.bag_model.specs.Shapes.{fields};
ghost use Rattle.field_table.specs.Plain.{nodes_of, shape_of, IsIndexed, IsIndexedShape};
ghost use Rattle.graph_lines.specs.declared.TheConstants.{ROUNDS_MAX};
ghost use Rattle.load_maker.specs.Loads.{load_table, lane_of, join_of, end_of, round_of, load_text, statement_line, statements_text};

use field_table::{Shape, Slots, Table};
use outside::Memory;
use scalar_types::{ScalarKind, ScalarWord};
use std::alloc::Global;
use std::fmt::Write;

/// The table of the load.
fn make_table(alloc: Global) -> Result<Table, Memory>
    ensures { IfOk result (λ table. table ≡ load_table) }
{
    let mut fields = Slots::new(alloc);
    fields.add(
        "least",
        0,
        Shape::Scalar(ScalarKind::One(ScalarWord::Fixed32)),
    )?;
    fields.add("hits", 1, Shape::Counter)?;
    fields.add("seen", 2, Shape::Set(ScalarKind::One(ScalarWord::Uint32)))?;
    Ok(Table::of(fields))
}

/// Appends the lines of a lane of a round: a branch, a write to each field, and a step to the
/// second service.
#[tactic(auto, unfolding(crate::specs::Loads::statements_text))]
fn put_lane(text: &mut String, round: u32, lane: u32) -> Result<(), Memory>
    requires round { round < ROUNDS_MAX }
    requires lane { lane < 8 }
    ensures { OnOk result
        (string_bytes text.new ≡ string_bytes text.old ++ statements_text (lane_of round lane)) }
{
    let start = 42 * round;
    let step = start + 5 * lane;
    let least = 1_000_000 - 8 * round - lane;
    let count = round + 1;
    let seen = (8 * round + lane) % 256;
    writeln!(text, "branch {} {start}", step + 1)?;
    writeln!(text, "set {} {} least {least}", step + 2, step + 1)?;
    writeln!(
        text,
        "set {} {} hits \"w{lane}\":{count}",
        step + 3,
        step + 2
    )?;
    writeln!(text, "set {} {} seen {seen}", step + 4, step + 3)?;
    writeln!(text, "forward {} {} b", step + 5, step + 4)?;
    Ok(())
}

/// Appends the line that joins the lanes of a round, which begins at this step.
fn put_join(text: &mut String, start: u32) -> Result<(), Memory>
    requires { start < 42 * ROUNDS_MAX }
    ensures { OnOk result
        (string_bytes text.new ≡ string_bytes text.old ++ statement_line (join_of start)) }
{
    writeln!(
        text,
        "join {} {} {} {} {} {} {} {} {}",
        start + 41,
        start + 5,
        start + 10,
        start + 15,
        start + 20,
        start + 25,
        start + 30,
        start + 35,
        start + 40
    )?;
    Ok(())
}

/// Appends the lines that end a round: its lanes are joined, and what they say goes back to the
/// first service.
#[tactic(auto, unfolding(crate::specs::Loads::statements_text))]
fn put_end(text: &mut String, round: u32) -> Result<(), Memory>
    requires { round < ROUNDS_MAX }
    ensures { OnOk result
        (string_bytes text.new ≡ string_bytes text.old ++ statements_text (end_of round)) }
{
    let start = 42 * round;
    put_join(text, start)?;
    writeln!(text, "forward {} {} a", start + 42, start + 41)?;
    Ok(())
}

/// Appends the lines of a round.
fn put_round(text: &mut String, round: u32) -> Result<(), Memory>
    requires { round < ROUNDS_MAX }
    ensures { OnOk result
        (string_bytes text.new ≡ string_bytes text.old ++ statements_text (round_of round)) }
{
    for lane in 0..8 {
        put_lane(text, round, lane)?;
    }
    put_end(text, round)
}

/// The text of the load.
fn make_text(alloc: Global, rounds: u32) -> Result<String, Memory>
    requires { rounds ≤ ROUNDS_MAX }
    ensures { IfOk result (λ text. string_bytes text ≡ load_text rounds) }
{
    let mut text = String::from_str(alloc, "service a all\nservice b none\nstart 0 a\n")?;
    for round in 0..rounds {
        put_round(&mut text, round)?;
    }
    writeln!(&mut text, "show {}", 42 * rounds)?;
    Ok(text)
}

/// The load of `n` rounds: its table, and the text of its graph, which has 42 steps for each round
/// and one before them. The greatest load has 42,001 steps in about a million bytes. See
/// `docs/FORMATS.md` for the lines of a round.
pub fn make_load(alloc: Global, n: u32) -> Result<(Table, Vec<u8>), Memory>
    requires some { 1 ≤ n }
    requires few { n ≤ ROUNDS_MAX }
    ensures table { IfOk result (λ load. load.0 ≡ load_table) }
    ensures text { IfOk result (λ load. load.1.items ≡ load_text n) }
{
    let table = make_table(alloc)?;
    let text = make_text(alloc, n)?;
    Ok((table, text.into_bytes()))
}
