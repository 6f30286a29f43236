//! What holds of all definitions, whatever loads them.

ghost use Rattle.std.specs.Prelude.{◌≡◌, ℕ, List, ◌++◌};
ghost use Rattle.bdl_load.specs.Loading.{Holding, Loading, Loads, AsksAll, AsksFirst};

use bdl_lexer::laws as tokens;
use bdl_parser::laws as modules;

/// Files and the name of the root come to at most one outcome: all files in one order, or a first
/// fault.
pub fn loading_is_unique()
    ensures { (held : Holding) (root : List ℕ) (outcome other : Loading) → Loads held root outcome
        → Loads held root other → outcome ≡ other }
{
    tokens::tokens_are_unique();
    tokens::tokens_exclude_faults();
    tokens::faults_are_unique();
    modules::modules_are_unique();
    modules::modules_exclude_faults();
    modules::faults_are_unique();
}

/// The names that loading asks for first are a prefix of all names that it asks for.
pub fn first_names_are_a_front()
    ensures { (held : Holding) (root : List ℕ) (names all : List (List ℕ))
        → AsksFirst held root names → AsksAll held root all
        → (rest : List (List ℕ)) × (all ≡ names ++ rest) }
{
    tokens::tokens_are_unique();
    tokens::tokens_exclude_faults();
    tokens::faults_are_unique();
    modules::modules_are_unique();
    modules::modules_exclude_faults();
    modules::faults_are_unique();
}
