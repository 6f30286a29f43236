//! Commas between texts.

ghost use Rattle.text_model.specs.Commas.{comma_before};
ghost use Rattle.report_text.specs.Extension.{Appends};

use outside::Memory;

/// Appends the comma before the text that has `at` texts before it: none before the first.
pub fn put_comma(at: usize, into: &mut Vec<u8>) -> Result<(), Memory>
    ensures { Appends result (comma_before at) into.old into.new }
{
    if at > 0 {
        into.push(b',')?;
    }
    Ok(())
}
