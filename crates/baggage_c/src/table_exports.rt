//! The exports on whole tables, on pieces and on literals.

ghost use Rattle.table_calls.specs.Tables.{ChecksTable};
ghost use Rattle.table_calls.specs.Evolution.{ComparesInto};
ghost use Rattle.piece_calls.specs.Carrying.{CarriesInto};
ghost use Rattle.piece_calls.specs.Collecting.{CollectsInto};
ghost use Rattle.piece_calls.specs.Quoting.{QuotesInto};
ghost use Rattle.baggage_c.specs.Answers.{TellsOutcome};
ghost use Rattle.baggage_c.specs.Choices.{Chosen, literal_numbered};
ghost use Rattle.baggage_c.specs.TableAnswers.{evolve_answer, piece_answer, quote_answer, slots_answer};

use crate::answers::Answer;
use crate::choices::literal_numbered;
use crate::table_answers::{evolve_answer, piece_answer, quote_answer, slots_answer};
use piece_calls::{carry_into, collect_into, quote_into};
use std::alloc::Global;
use table_calls::{check_table, evolve_into};

/// Whether a text is that of a table.
#[unsafe(no_mangle)]
pub extern "C" fn baggage_check_table(alloc: Global, table: &[u8]) -> Answer
    ensures { TellsOutcome slots_answer (ChecksTable table.now) result }
{
    slots_answer(check_table(alloc, table))
}

/// Whether a table may take the place of an older one.
#[unsafe(no_mangle)]
pub extern "C" fn baggage_evolve(alloc: Global, old: &[u8], next: &[u8], room: &mut [u8]) -> Answer
    ensures { TellsOutcome evolve_answer (ComparesInto old.now next.now room.old room.new) result }
{
    evolve_answer(evolve_into(alloc, old, next, room))
}

/// The lines of pieces that carry the bytes of a context.
#[unsafe(no_mangle)]
pub extern "C" fn baggage_carry(
    alloc: Global,
    context: &[u8],
    width: usize,
    room: &mut [u8],
) -> Answer
    ensures { TellsOutcome piece_answer (CarriesInto width context.now room.old room.new) result }
{
    piece_answer(carry_into(alloc, context, width, room))
}

/// The bytes of a context that lines of pieces carry.
#[unsafe(no_mangle)]
pub extern "C" fn baggage_collect(alloc: Global, lines: &[u8], room: &mut [u8]) -> Answer
    ensures { TellsOutcome piece_answer (CollectsInto lines.now room.old room.new) result }
{
    piece_answer(collect_into(alloc, lines, room))
}

/// The literal of any bytes.
#[unsafe(no_mangle)]
pub extern "C" fn baggage_quote(literal: u32, text: &[u8], room: &mut [u8]) -> Answer
    ensures { Chosen (literal_numbered literal)
        (λ literal. TellsOutcome quote_answer (QuotesInto literal text.now room.old room.new))
        room.old room.new result }
{
    match literal_numbered(literal) {
        Ok(literal) => quote_answer(quote_into(literal, text, room)),
        Err(status) => Answer::refused(status),
    }
}
