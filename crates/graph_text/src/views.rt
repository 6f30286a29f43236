//! Views of services.

ghost use Rattle.std.specs.Prelude.{◌↔◌, ℕ, map, IfOk, IfErr};
ghost use Rattle.std.specs.List.Sorted.{IsNonDecreasingBy};
ghost use Rattle.std.specs.Ordering.{nat_cmp};
ghost use Rattle.context_model.specs.Orders.{IsIn, Rises};
ghost use Rattle.field_table.specs.Views as tables;
ghost use Rattle.graph_lines.specs.Statements as lines;
ghost use Rattle.graph_lines.specs.Acts.{named_view_of};
ghost use Rattle.graph_text.specs.Additions.{InSome, MeansView, AreRangesOf, IsRefusedView};
ghost use Rattle.graph_text.specs.Rules.{MissesPath};

use crate::faults::{GraphCode, LineFault};
use field_table::{SlotSet, Table, View};
use graph_lines::NamedView;
use outside::{Memory, OrMemory};
use std::alloc::Global;

/// The slots of the fields at these paths: for each path the number of the first slot, and that
/// behind the last.
fn ranges_of(
    alloc: Global,
    table: &Table,
    paths: &[&str],
) -> Result<Vec<(usize, usize)>, OrMemory<LineFault>>
    ensures ok { IfOk result
        (λ ranges. AreRangesOf table.now (map (λ path. path.now) paths.now) ranges.items) }
    ensures err { IfErr result
        (IsRefusedView table.now (lines.Only (map (λ path. path.now) paths.now))) }
{
    let mut ranges = Vec::new(alloc);
    for path in paths {
        let Some(range) = table.find_range(path) else {
            return Err(OrMemory::Fault(LineFault::Code(GraphCode::NoSuchPath)));
        };
        ranges.push(range)?;
    }
    Ok(ranges)
}

/// The slots in ranges that are sorted by their starts, each once.
fn merged(alloc: Global, ranges: &[(usize, usize)]) -> Result<SlotSet, Memory>
    requires { IsNonDecreasingBy (λ range. range.0) ranges.now }
    ensures rises { IfOk result (Rises nat_cmp) }
    ensures each { IfOk result (λ slots. (slot : ℕ) → IsIn slot slots ↔ InSome ranges.now slot) }
{
    let mut slots = SlotSet::new(alloc);
    let mut next = 0;
    for range in ranges {
        let (first, end) = *range;
        slots.push_range(first.max(next), end)?;
        next = next.max(end);
    }
    Ok(slots)
}

/// The slots in some ranges, each once.
fn slots_in(alloc: Global, mut ranges: Vec<(usize, usize)>) -> Result<SlotSet, Memory>
    ensures rises { IfOk result (Rises nat_cmp) }
    ensures each { IfOk result (λ slots. (slot : ℕ) → IsIn slot slots ↔ InSome ranges.items slot) }
{
    ranges.sort_by_key(|range| range.0)?;
    let slots = merged(alloc, ranges.as_slice())?;
    Ok(slots)
}

/// The view that names paths. A path must be that of a field that is reached through bags.
pub(crate) fn read_view(
    alloc: Global,
    table: &Table,
    named: &NamedView<'_>,
) -> Result<View, OrMemory<LineFault>>
    ensures paths { IfOk result (λ _. MissesPath table.now (named_view_of named.now) → ⊥) }
    ensures ok { IfOk result
        (λ view. MeansView table.now (named_view_of named.now) (tables.plain_view_of view)) }
    ensures err { IfErr result (IsRefusedView table.now (named_view_of named.now)) }
{
    match named {
        NamedView::All => Ok(View::All),
        NamedView::Nothing => Ok(View::Nothing),
        NamedView::Only(paths) => {
            // The proof learns here that the fields make a table, so that a path has one range.
            let _ = table.nodes();
            let ranges = ranges_of(alloc, table, paths.as_slice())?;
            let slots = slots_in(alloc, ranges)?;
            Ok(View::Only(slots))
        }
    }
}
