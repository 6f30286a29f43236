//! Laws of merges over all lists, each the contract of a function that does nothing.

ghost use Rattle.context_model.specs.Merged.{PathsTellLists, HasOneMerge, HasLastAtoms, MergesGreedily, MergesFew, MergesOneByOne, MergesInGroups, MergesOfMerges, MergesMembers, KeepsElements, KeepsAtoms, StaysWithinLimit};
ghost use Rattle.context_model.specs.MergedMarkers.{KeepsMarkers, KeepsMarkersBehind, KeepsFirstMarker, KeepsFronts, EndsWithEach};
ghost use Rattle.context_model.specs.MarkerPlaces.{EndsAtFirstMarker};
ghost use Rattle.lex_merge.specs.Laws.{MergesInAnyOrder, MergesInAnyGrouping, MergesOnce};

/// The merge of two lists doesn't know which came first.
pub fn merges_in_any_order()
    ensures { MergesInAnyOrder }
{}

/// Three lists can be merged in either grouping.
pub fn merges_in_any_grouping()
    ensures { MergesInAnyGrouping }
{}

/// A list merged with itself is the list.
pub fn merges_once()
    ensures { MergesOnce }
{}

/// Two well-formed lists with the same paths are equal.
pub fn lists_are_known_by_their_paths()
    ensures { PathsTellLists }
{}

/// Lists have at most one merge.
pub fn has_one_merge()
    ensures { HasOneMerge }
{}

/// A merge is the list of the last atoms of all paths of the lists, in the order of paths.
pub fn merges_are_last_atoms()
    ensures { HasLastAtoms }
{}

/// The greedy merge of two contexts is their merge.
pub fn merges_greedily()
    ensures { MergesGreedily }
{}

/// The merge of no list is the empty list, and that of one context is that context.
pub fn merges_few()
    ensures { MergesFew }
{}

/// Contexts can be merged one after another.
pub fn merges_one_by_one()
    ensures { MergesOneByOne }
{}

/// The greedy merge of a merge of some lists and a merge of others is the merge of all of them.
pub fn merges_in_groups()
    ensures { MergesInGroups }
{}

/// The merge of some lists can stand for them among others.
pub fn merges_of_merges()
    ensures { MergesOfMerges }
{}

/// Neither order nor repetition of the lists matters.
pub fn merges_members()
    ensures { MergesMembers }
{}

/// The elements of a greedy merge are those of both lists.
pub fn keeps_elements()
    ensures { KeepsElements }
{}

/// The atoms of a merge are those of its lists.
pub fn keeps_atoms()
    ensures { KeepsAtoms }
{}

/// Atoms within the limit stay within it.
pub fn stays_within_limit()
    ensures { StaysWithinLimit }
{}

/// A merge has a marker exactly where one of its lists has one.
pub fn keeps_markers()
    ensures { KeepsMarkers }
{}

/// A marker stays directly after the atom that it followed.
pub fn keeps_markers_behind()
    ensures { KeepsMarkersBehind }
{}

/// The first marker of a merge is the least of the first markers of its contexts.
pub fn keeps_first_marker()
    ensures { KeepsFirstMarker }
{}

/// The atoms before the first marker of a merge are those atoms of its lists whose paths come
/// before that of each marker.
pub fn keeps_fronts()
    ensures { KeepsFronts }
{}

/// A field is ended in a merge exactly where it is ended in each context.
pub fn ends_with_each()
    ensures { EndsWithEach }
{}

/// A field is ended exactly where the atom before the first marker is beyond it.
pub fn ends_at_first_marker()
    ensures { EndsAtFirstMarker }
{}
