//! Laws of updates, each the contract of a function that does nothing.

ghost use Rattle.step_calls.specs.Laws.{ExcerptsAreViews, ExcerptsAreTyped, ExcerptsWriteAlike, UpdatesGiveSteps, UpdatesAreContexts, UpdatesReadAsJoins, CutUpdatesSayJoins, MergesGiveSteps, StepsAddUp, NothingIsEnded};
ghost use Rattle.context_model.specs.declared.Form.{Form};
ghost use Rattle.bag_model.specs.Shapes.{Nodes};
ghost use Rattle.bag_model.specs.Tables.{IsTable};
ghost use Rattle.text_lines.specs.Readings.{IsDefinite};
ghost use Rattle.step_calls.specs.Lines.{write_lines};

/// Under a table a line says one write or has one fault, never both.
pub fn lines_are_definite()
    ensures { (form : Form) (nodes : Nodes) → IsTable nodes → IsDefinite (write_lines form nodes) }
{}

/// A table that has only the slots which a service knows does for it what the whole table does with
/// its view.
pub fn excerpts_are_views()
    ensures { ExcerptsAreViews }
{}

/// What is typed under a table is typed under each excerpt of it.
pub fn excerpts_are_typed()
    ensures { ExcerptsAreTyped }
{}

/// A write to a slot of an excerpt is a write to the slot of the table.
pub fn excerpts_write_alike()
    ensures { ExcerptsWriteAlike }
{}

/// Updates are the steps of the model.
pub fn updates_give_steps()
    ensures { UpdatesGiveSteps }
{}

/// An update of typed contexts is a typed context.
pub fn updates_are_contexts()
    ensures { UpdatesAreContexts }
{}

/// An update says the join of what its inputs and its writes say, and ends what all its inputs end.
pub fn updates_read_as_joins()
    ensures { UpdatesReadAsJoins }
{}

/// What an update says as ended after the cut to its budget is the join of what its inputs and its
/// writes say.
pub fn cut_updates_say_joins()
    ensures { CutUpdatesSayJoins }
{}

/// Merges and cuts are the steps of the model, at a service that knows nothing.
pub fn merges_give_steps()
    ensures { MergesGiveSteps }
{}

/// Where nothing was cut, several steps can be done at once.
pub fn steps_add_up()
    ensures { StepsAddUp }
{}

/// The context of one marker says that all may be missing.
pub fn nothing_is_ended()
    ensures { NothingIsEnded }
{}
