//! The law of reports as JSON, the contract of a function that does nothing.

ghost use Rattle.report_json.specs.JsonReports.{HasOneJsonReport};

/// A graph with its lists has one report as JSON.
pub fn lists_have_one_json_report()
    ensures { HasOneJsonReport }
{}
