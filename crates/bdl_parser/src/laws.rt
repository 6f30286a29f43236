//! What holds of all tokens, whatever reads them.

ghost use Rattle.std.specs.Prelude.{◌≡◌, ℕ, List};
ghost use Rattle.bdl_parser.specs.declared.ParseCode.{ParseCode};
ghost use Rattle.bdl_parser.specs.declared.trees.Module.{Module};
ghost use Rattle.bdl_parser.specs.FirstFault.{IsModuleOf, FaultAt};
ghost use Rattle.bdl_parser.specs.Lexemes.{Lexeme};

/// Tokens say at most one module.
pub fn modules_are_unique()
    ensures { (tokens : List Lexeme) → (module_ other : Module) → IsModuleOf tokens module_
        → IsModuleOf tokens other → module_ ≡ other }
{}

/// Tokens that say a module have no fault.
pub fn modules_exclude_faults()
    ensures { (tokens : List Lexeme) → (module_ : Module) → (token : ℕ) → (code : ParseCode)
        → IsModuleOf tokens module_ → FaultAt tokens token code → ⊥ }
{}

/// Tokens have at most one first fault.
pub fn faults_are_unique()
    ensures { (tokens : List Lexeme) → (token place : ℕ) → (code other : ParseCode)
        → FaultAt tokens token code → FaultAt tokens place other
        → (token ≡ place) × (code ≡ other) }
{}
