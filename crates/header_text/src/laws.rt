//! Laws of the text of a header and of what is read of a part, each the contract of a function that
//! does nothing.

ghost use Rattle.header_text.specs.Laws.{HeadersComeBack, PartsReadOneWay, DamageIsLost};

/// The text of a context's bytes is read as the context, in either form, and is one part of a
/// header's value.
pub fn headers_come_back()
    ensures { HeadersComeBack }
{}

/// A part is read in one way, and bytes have texts of their own.
pub fn parts_read_one_way()
    ensures { PartsReadOneWay }
{}

/// A part that isn't the text of a context's bytes is lost, and so is each text that was cut off.
pub fn damage_is_lost()
    ensures { DamageIsLost }
{}
