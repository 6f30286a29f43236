//! The lines of a certificate, read one by one.

ghost use Rattle.std.specs.Prelude.{length, map, IfOk, IfErr, MatchResult};
ghost use Rattle.text_lines.specs.Readings.{IsFirstBad};
ghost use Rattle.write_proof.specs.ChildRows.{AreRowsTo};
ghost use Rattle.write_proof.specs.LineRules.{IsBadEntryLine, IsGoodEntry, certificate_lines};
ghost use Rattle.write_proof.specs.Entries.{lines_in};
ghost use Rattle.write_proof.specs.Verdicts.{SaysAll};
ghost use Rattle.write_proof.specs.Views.{entry_of};

use crate::child_rows::rows_of_children;
use crate::entries::{Entry, read_entry};
use crate::line_rules::{check_rules, last_entry, may_follow};
use crate::verdicts::VerifyCode;
use field_table::Table;
use outside::Memory;
use recorded_graph::{Graph, Places};
use std::alloc::Global;
use text_lines::cut_fed_line;

/// The first line that is bad by itself, by its number from 1, and the rule that it breaks.
#[derive(Clone, Copy, Debug)]
pub(crate) struct BadLine {
    pub line: u64,
    pub code: VerifyCode,
}

/// What a line says after other entries, or the first rule that it breaks.
fn next_entry<'a>(
    table: &Table,
    graph: &Graph,
    rows: &[Places],
    earlier: &[Entry<'_>],
    line: &'a [u8],
) -> Result<Entry<'a>, VerifyCode>
    requires { AreRowsTo graph.now (length graph.now.steps) rows.now }
    ensures ok { IfOk result
        (λ entry. IsGoodEntry table.now graph.now (map entry_of earlier.now) line.now
        (entry_of entry)) }
    ensures err { IfErr result
        (IsBadEntryLine table.now graph.now (map entry_of earlier.now) line.now) }
{
    let Some(entry) = read_entry(line) else {
        return Err(VerifyCode::Form);
    };
    if !may_follow(last_entry(earlier), entry) {
        return Err(VerifyCode::Form);
    }
    check_rules(table, graph, rows, earlier, entry)?;
    Ok(entry)
}

/// What the lines of a certificate say, or the first of them that is bad by itself.
pub(crate) fn read_entries<'a>(
    alloc: Global,
    table: &Table,
    graph: &Graph,
    certificate: &'a [u8],
) -> Result<Result<Vec<Entry<'a>>, BadLine>, Memory>
    ensures { IfOk result (λ read. MatchResult read
        (λ entries. SaysAll table.now graph.now certificate.now (map entry_of entries.items))
        (λ bad. IsFirstBad (certificate_lines table.now graph.now)
        (lines_in certificate.now) bad.line bad.code)) }
{
    let rows = rows_of_children(alloc, graph)?;
    let mut entries = Vec::new(alloc);
    let mut rest = certificate;
    while let Some((line, behind)) = cut_fed_line(rest) {
        match next_entry(table, graph, &rows, entries.as_slice(), line) {
            Ok(entry) => entries.push(entry)?,
            Err(code) => {
                let line = entries.len() as u64 + 1;
                return Ok(Err(BadLine { line, code }));
            }
        }
        rest = behind;
    }
    Ok(Ok(entries))
}
