//! What holds of every source, whatever reads it.

ghost use Rattle.std.specs.Prelude.{◌≡◌, ℕ, List};
ghost use Rattle.bdl_lexer.specs.declared.LexCode.{LexCode};
ghost use Rattle.bdl_lexer.specs.declared.Token.{Token};
ghost use Rattle.bdl_lexer.specs.Faults.{FirstLexicalFault};
ghost use Rattle.bdl_lexer.specs.Tokens.{AreTokensOf};

/// A source has at most one list of tokens.
pub fn tokens_are_unique()
    ensures { (source : List ℕ) → (tokens others : List Token) → AreTokensOf source tokens
        → AreTokensOf source others → tokens ≡ others }
{}

/// A source that has tokens has no lexical fault.
pub fn tokens_exclude_faults()
    ensures { (source : List ℕ) → (tokens : List Token) → (line column : ℕ) → (code : LexCode)
        → AreTokensOf source tokens → FirstLexicalFault source line column code → ⊥ }
{}

/// A source has at most one first lexical fault.
pub fn faults_are_unique()
    ensures { (source : List ℕ) → (line column row place : ℕ) → (code other : LexCode)
        → FirstLexicalFault source line column code → FirstLexicalFault source row place other
        → (line ≡ row) × (column ≡ place) × (code ≡ other) }
{}
