//! How an outcome is delivered: an output to its sink, a refusal as a line and a status.

ghost use Rattle.std.specs.Prelude.{◌≡◌, Ok, string_bytes, MatchResult};
ghost use Rattle.baggage_cli.specs.Scene.{change};
ghost use Rattle.baggage_cli.specs.Delivery.{TellsLine, Notifies, Refuses, Delivers};

use crate::refusals::{Notice, Refusal, definition_line, table_line};
use outside::{Failed, Memory, Sink, write_all};
use std::alloc::Global;

/// The status of a definition, or of a printed table, with a fault.
const DEFINITION_REFUSED: u8 = 1;

/// Writes a line to the sink of errors. The answer is the line's status, or that of a sink that
/// failed.
fn tell<E: Sink>(errs: &mut E, line: &str, status: u8) -> u8
    ensures { TellsLine status line.now (change E.written E.faults errs.old errs.new) result }
{
    match write_all(errs, line.as_bytes()) {
        Ok(()) => status,
        Err(Failed) => Notice::SinkFailed.status(),
    }
}

/// Says a notice to the sink of errors.
pub fn notify<E: Sink>(errs: &mut E, notice: Notice) -> u8
    ensures { Notifies notice (change E.written E.faults errs.old errs.new) result }
{
    tell(errs, notice.line(), notice.status())
}

/// Says a line that takes memory. Where there was none for it, that is said instead.
fn tell_in_full<E: Sink>(errs: &mut E, line: Result<String, Memory>, status: u8) -> u8
    ensures { MatchResult line
        (λ line. TellsLine status (string_bytes line)
        (change E.written E.faults errs.old errs.new) result)
        (λ _. Notifies Notice.Memory (change E.written E.faults errs.old errs.new) result) }
{
    match line {
        Ok(line) => tell(errs, line.as_str(), status),
        Err(Memory) => notify(errs, Notice::Memory),
    }
}

/// Says a refusal to the sink of errors.
pub(crate) fn refuse<E: Sink>(alloc: Global, errs: &mut E, refusal: &Refusal) -> u8
    ensures { Refuses refusal.now (change E.written E.faults errs.old errs.new) result }
{
    match refusal {
        Refusal::Plain(notice) => notify(errs, *notice),
        Refusal::Input { line, fault } => {
            tell_in_full(errs, fault.line(alloc, *line), fault.status())
        }
        Refusal::Definition {
            file,
            line,
            column,
            code,
        } => {
            let line = definition_line(alloc, file.as_str(), *line, *column, *code);
            tell_in_full(errs, line, DEFINITION_REFUSED)
        }
        Refusal::Table { file, line, code } => {
            let line = table_line(alloc, file.as_str(), *line, *code);
            tell_in_full(errs, line, DEFINITION_REFUSED)
        }
    }
}

/// Writes an output. Where its sink fails, that is said to the sink of errors.
pub(crate) fn deliver<K: Sink, E: Sink>(out: &mut K, errs: &mut E, output: &[u8]) -> u8
    ensures { Delivers (Ok output.now) (change K.written K.faults out.old out.new)
        (change E.written E.faults errs.old errs.new) result }
{
    match write_all(out, output) {
        Ok(()) => 0,
        Err(Failed) => {
            // The output's failure is the answer, whatever becomes of its line.
            let _ = notify(errs, Notice::SinkFailed);
            Notice::SinkFailed.status()
        }
    }
}
