//! Laws of the form, each the contract of a function that does nothing.

ghost use Rattle.std.specs.Prelude.{◌≡◌, ℕ, List};
ghost use Rattle.graph_lines.specs.Statements.{Statement};
ghost use Rattle.graph_lines.specs.Forms.{HasStatementForm};

/// A line says one thing.
pub fn lines_have_one_form()
    ensures one_form { (text : List ℕ) (a b : Statement) → HasStatementForm text a
        → HasStatementForm text b → a ≡ b }
{}
