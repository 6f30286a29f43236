//! Laws of the lines, each the contract of a function that does nothing.

ghost use Rattle.std.specs.Prelude.{◌≢◌, ◌≤◌, ℕ, [], List, Ok, Err, length};
ghost use Rattle.std.specs.List.{Contains};
ghost use Rattle.base64.specs.Engines.{standard};
ghost use Rattle.base64.specs.GeneralPurpose.{IsConsistent, IsStrict, encode_of};
ghost use Rattle.text_lines.specs.Lines.{lines_of};
ghost use Rattle.text_lines.specs.Readings.{IsDefinite};
ghost use Rattle.text_carrier.specs.declared.faults.CarryFault.TheVariants as faults;
ghost use Rattle.text_carrier.specs.Carrying.{AreAll, AreSome, IsCarried, IsFirstLost, carried_lines, text_of_lines};
ghost use Rattle.text_carrier.specs.Collecting.{CollectOneWay, Collects};
ghost use Rattle.text_carrier.specs.Rules.{piece_lines};

/// An encoding of the standard alphabet with padding decodes to its bytes, and nothing else
/// decodes; none of its bytes is a space, a line feed or a carriage return.
pub fn encodings_are_plain()
    ensures consistent { IsConsistent standard }
    ensures strict { IsStrict standard }
    ensures plain { (bytes : List ℕ) (byte : ℕ) → Contains (encode_of standard bytes) byte
        → (byte ≢ 32) × (byte ≢ 10) × (byte ≢ 13) }
{}

/// A line says one piece or breaks one rule first, never both.
pub fn lines_are_definite()
    ensures { IsDefinite piece_lines }
{}

/// Lines collect to one answer, except where memory runs out.
pub fn lines_collect_one_way()
    ensures { CollectOneWay }
{}

/// Each line of the pieces of some bytes has at most 416 bytes.
pub fn carried_lines_are_short()
    ensures { (width : ℕ) (bytes line : List ℕ) → IsCarried width bytes
        → Contains (carried_lines width bytes) line
        → length line ≤ 416 }
{}

/// The lines of all pieces of some bytes, in any order and each as often as one likes, collect to
/// the bytes.
pub fn carried_lines_come_back()
    ensures { (width : ℕ) (bytes : List ℕ) (sent : List (List ℕ)) → IsCarried width bytes
        → AreSome width bytes sent → AreAll width bytes sent
        → Collects (lines_of (text_of_lines sent)) (Ok bytes) }
{}

/// One or more of the lines of some bytes, of which one is missing, are refused, and the least
/// number whose line is missing is reported.
pub fn lost_lines_are_told()
    ensures { (width : ℕ) (bytes : List ℕ) (sent : List (List ℕ)) (line : List ℕ)
        → IsCarried width bytes
        → AreSome width bytes sent → sent ≢ [] → Contains (carried_lines width bytes) line
        → (Contains sent line → ⊥)
        → (place : ℕ) × IsFirstLost width bytes sent place
        × Collects (lines_of (text_of_lines sent)) (Err (faults.Missing place)) }
{}
