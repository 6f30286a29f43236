//! Laws of contexts over all lists, each the contract of a function that does nothing.

ghost use Rattle.context_model.specs.Nearest.{HasNearestHeaders};
ghost use Rattle.context_model.specs.ShapeFault.{FaultsOnce};
ghost use Rattle.context_model.specs.WellFormed.{TrimsWellFormed};
ghost use Rattle.context_model.specs.Ended.{EndsAtMarkers};
ghost use Rattle.context_model.specs.WithoutData.{DataMayGo};
ghost use Rattle.atom_list.specs.Places.{WalksFindNearest};

/// In a path the header of each level is the nearest header of that level before.
pub fn headers_are_nearest()
    ensures { HasNearestHeaders }
{}

/// A list that is well formed has no first fault, and any other at most one.
pub fn faults_once()
    ensures { FaultsOnce }
{}

/// A trimmed context is a context.
pub fn trims_well_formed()
    ensures { TrimsWellFormed }
{}

/// A field is ended exactly where the atom before each marker is beyond it.
pub fn ends_at_markers()
    ensures { EndsAtMarkers }
{}

/// Data may be taken from a context: it stays one, and its fields stay ended where they were.
pub fn data_may_go()
    ensures { DataMayGo }
{}

/// A walk over a context has one place for each atom, and finds the nearest header of each level
/// around it.
pub fn walks_find_nearest()
    ensures { WalksFindNearest }
{}
