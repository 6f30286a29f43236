//! What name paths tell of the slots of every table.

ghost use Rattle.bag_model.specs.NamePaths.{NamePathsDiffer, RangesAreExact};

/// A table has at most one slot of a name path.
pub fn name_paths_differ()
    ensures { NamePathsDiffer }
{}

/// The range of a name path has exactly the slots whose name path is it, or begins with it and a
/// dot.
pub fn ranges_are_exact()
    ensures { RangesAreExact }
{}
