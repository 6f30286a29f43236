//! Laws of recorded graphs of steps, each the contract of a function that does nothing.

ghost use Rattle.trace_model.specs.Contributions.{TruthsAreContributed};
ghost use Rattle.trace_model.specs.CutReadings.{CutsSayWhatWasSaid};
ghost use Rattle.trace_model.specs.Faithful.{RunsAreFaithful, EndsInParents, AlikeStepsSayTheSame};
ghost use Rattle.trace_model.specs.Runs.{GivesContexts, HasOneRun, RunsGrow};
ghost use Rattle.trace_model.specs.ShownValues.{ShownIsHonest};
ghost use Rattle.trace_model.specs.Truth.{AdditionsAreListed, HasOneTruth, SameWritesReachAlike, TruthIsJoin};

/// A sound graph of a table has one truth at each step, and that is the join of all that the steps
/// on the way wrote and received, in whatever order that is listed and however often. It can be
/// listed.
pub fn truth_is_the_join()
    ensures one { HasOneTruth }
    ensures listed { AdditionsAreListed }
    ensures join { TruthIsJoin }
{}

/// The truth of a slot at a step is the least value above all that the steps on the way contribute
/// to the slot alone.
pub fn truths_are_contributed()
    ensures { TruthsAreContributed }
{}

/// A sound graph of a table has at most one run, and a run grows by one list after another.
pub fn graphs_have_one_run()
    ensures one { HasOneRun }
    ensures grow { RunsGrow }
{}

/// What a step makes of typed contexts is a typed context.
pub fn steps_give_contexts()
    ensures { GivesContexts }
{}

/// The list of each step is well formed and typed. It says the truth of each slot that is ended in
/// it, never more than the truth of any, and all of the truth where it has no marker, whatever the
/// services on the way knew.
pub fn runs_are_faithful()
    ensures { RunsAreFaithful }
{}

/// A value that is shown as exact is the truth, no value that is shown says more, and where nothing
/// was cut off on the way each is exact.
pub fn shown_values_are_honest()
    ensures { ShownIsHonest }
{}

/// A slot that is ended in the list of a step is ended in the lists of its parents.
pub fn slots_end_in_parents()
    ensures { EndsInParents }
{}

/// Two steps that the same writes and the same received lists reach say the same, however the steps
/// between are ordered and grouped and whatever the services know: of each slot that is ended at
/// both, and of all where nothing was cut off.
pub fn same_writes_read_alike()
    ensures reach { SameWritesReachAlike }
    ensures say { AlikeStepsSayTheSame }
{}

/// What a cut list says as ended was said before the cut, whatever table reads it.
pub fn cuts_say_what_was_said()
    ensures { CutsSayWhatWasSaid }
{}
