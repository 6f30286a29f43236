//! Laws of reports, each the contract of a function that does nothing.

ghost use Rattle.report_text.specs.Blocks.{HasOneBlock};

/// A list has one block in each form.
pub fn lists_have_one_block()
    ensures { HasOneBlock }
{}
