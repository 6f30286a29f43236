//! Laws of reports, each the contract of a function that does nothing.

ghost use Rattle.graph_report.specs.Reports.{HasOneReport};

use report_text::laws::lists_have_one_block;

/// A graph with its lists has one report.
pub fn lists_have_one_report()
    ensures { HasOneReport }
{
    lists_have_one_block();
}
