//! Laws of the text, each the contract of a function that does nothing.

ghost use Rattle.std.specs.Prelude.{◌≡◌, ℕ, List};
ghost use Rattle.bag_model.specs.Shapes.{Nodes};
ghost use Rattle.bag_model.specs.Tables.{IsTable};
ghost use Rattle.text_lines.specs.Readings.{IsDefinite};
ghost use Rattle.table_text.specs.declared.faults.TableCode.{TableCode};
ghost use Rattle.table_text.specs.Rules.{field_lines};
ghost use Rattle.table_text.specs.Reading.{IsTableFault};
ghost use Rattle.table_text.specs.TableTexts.{table_text};

/// A line says one field or has one fault, never both.
pub fn lines_are_definite()
    ensures { IsDefinite field_lines }
{}

/// A text is that of at most one table.
pub fn texts_have_one_table()
    ensures { (a b : Nodes) → IsTable a → IsTable b → table_text a ≡ table_text b → a ≡ b }
{}

/// The text of a table has no fault.
pub fn printed_texts_have_no_fault()
    ensures { (nodes : Nodes) (line : ℕ) (code : TableCode) → IsTable nodes
        → IsTableFault (table_text nodes) line code → ⊥ }
{}

/// A text has at most one first fault.
pub fn texts_have_one_fault()
    ensures { (text : List ℕ) (m n : ℕ) (c d : TableCode)
        → IsTableFault text m c → IsTableFault text n d → (m ≡ n) × (c ≡ d) }
{}
