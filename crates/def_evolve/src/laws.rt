//! Laws of two tables, each the contract of a function that does nothing.

ghost use Rattle.std.specs.Prelude.{◌≡◌, ◌↔◌, List, [], ◌∷◌};
ghost use Rattle.bag_model.specs.Shapes.{Nodes, Bag};
ghost use Rattle.bag_model.specs.Tables.{IsTable};
ghost use Rattle.def_evolve.specs.Breaks.{IsFitting, way_text};
ghost use Rattle.def_evolve.specs.BreakLists.{AreBreaks, BreakAt};
ghost use Rattle.def_evolve.specs.Verdicts.{IsVerdict};
ghost use Rattle.def_evolve.specs.Evolution.{IsSafe};
ghost use Rattle.def_evolve.specs.Versions.{LiveTogether};
ghost use Rattle.def_evolve.specs.Widening.{WiderKindsSpellAlike};
ghost use Rattle.def_evolve.specs.declared.verdicts.Verdict.{Verdict};
ghost use Rattle.def_evolve.specs.declared.verdicts.Verdict.TheVariants.{Breaks};

/// Each value of a kind is one of each wider kind, with the same spelling.
pub fn wider_kinds_spell_alike()
    ensures { WiderKindsSpellAlike }
{}

/// Where a new table fits an old one, contexts of the old one are safe under the new one.
pub fn fitting_tables_are_safe()
    ensures { (old new : Nodes) → IsTable old → IsTable new → IsFitting old new → IsSafe old new }
{}

/// The first of all breaks is the one that a verdict tells, and there is none exactly where the new
/// table fits.
pub fn verdicts_tell_the_first_break()
    ensures first { (old new : Nodes) (told : BreakAt) (more : List BreakAt)
        → AreBreaks (Bag old) (Bag new) (told ∷ more)
        → IsVerdict old new (Breaks (way_text told.way) told.change) }
    ensures none { (old new : Nodes) → AreBreaks (Bag old) (Bag new) [] ↔ IsFitting old new }
{}

/// Two tables have one verdict.
pub fn tables_have_one_verdict()
    ensures { (old new : Nodes) (a b : Verdict) → IsTable old → IsTable new → IsVerdict old new a
        → IsVerdict old new b → a ≡ b }
{}

/// Where each of two tables may take the place of the other, both can be in use at once. What is
/// written under one of them, with nothing that it doesn't name, is typed under both. Merges of
/// such contexts and their normal forms for services of either table are typed under both; a merge
/// reads under each as the join, and a normal form reads under each as before.
pub fn versions_live_together()
    ensures { (old new : Nodes) → IsTable old → IsTable new
        → IsFitting old new → IsFitting new old → LiveTogether old new }
{}
