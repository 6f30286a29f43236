//! Laws of the kinds over all atoms, each the contract of a function that does nothing.

ghost use Rattle.std.specs.Prelude.{◌≡◌, ℕ, List};
ghost use Rattle.context_model.specs.Kinds.{atom_of, IsKind};
ghost use Rattle.context_model.specs.Kinds.{Kind as PlainKind};
ghost use Rattle.atom_kinds.specs.Kinds.{outer_kind, TellsKind};
ghost use Rattle.atom_kinds.specs.declared.Kind.{Kind as AnyKind};

/// The atom of a kind is said to be of that kind.
pub fn atoms_tell_their_kind()
    ensures { (kind : PlainKind) → IsKind kind → TellsKind (atom_of kind) (outer_kind kind) }
{}

/// An atom is said to be of one kind at most.
pub fn atoms_have_one_kind()
    ensures { (atom : List ℕ) (j k : AnyKind) → TellsKind atom j → TellsKind atom k → j ≡ k }
{}
