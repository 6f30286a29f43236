//! Laws of graph texts, each the contract of a function that does nothing.

ghost use Rattle.std.specs.Prelude.{◌≡◌, ℕ, List};
ghost use Rattle.bag_model.specs.Shapes.{Nodes};
ghost use Rattle.bag_model.specs.Tables.{IsTable};
ghost use Rattle.trace_model.specs.Graphs.{Graph, IsRecorded};
ghost use Rattle.graph_text.specs.declared.faults.LineFault.{LineFault};
ghost use Rattle.graph_text.specs.Reading.{LinesAreDefinite, IsGraphOf, IsFirstFault};

use field_writes::laws::{texts_are_one_write, writes_are_of_their_shape};
use graph_lines::lines_have_one_form;

/// Under a table a line says one thing or has one fault, never both.
pub fn lines_are_definite()
    ensures { LinesAreDefinite }
{
    lines_have_one_form();
    texts_are_one_write();
}

/// A text says one graph or has one first fault, never both.
pub fn texts_have_one_graph()
    ensures one { (table : Nodes) (text : List ℕ) (a b : Graph) → IsTable table
        → IsGraphOf table text a → IsGraphOf table text b → a ≡ b }
    ensures fault { (table : Nodes) (text : List ℕ) (m n : ℕ) (f g : LineFault) → IsTable table
        → IsFirstFault table text m f → IsFirstFault table text n g → (m ≡ n) × (f ≡ g) }
    ensures never_both { (table : Nodes) (text : List ℕ) (graph : Graph) (n : ℕ) (f : LineFault)
        → IsTable table
        → IsGraphOf table text graph → IsFirstFault table text n f → ⊥ }
{
    lines_are_definite();
}

/// A text that says a graph under a table says a sound graph of the table: each service knows slots
/// of it, what is received is a typed context, and what is written is a value of its slot's shape
/// that fits, at a slot that the service knows.
pub fn texts_give_recorded_graphs()
    ensures { (table : Nodes) (text : List ℕ) (graph : Graph) → IsTable table
        → IsGraphOf table text graph → IsRecorded table graph }
{
    writes_are_of_their_shape();
}
