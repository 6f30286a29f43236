//! Which kinds of scalars may take the place of a kind. Nothing here takes memory.

ghost use Rattle.std.specs.Prelude.{◌↔◌, IsTrue};
ghost use Rattle.context_model.specs.Orders.{IsIn};
ghost use Rattle.scalar_types.specs.KindViews.{kind_of};
ghost use Rattle.def_evolve.specs.Widening.{AreWider, Widens, wider_words};

use scalar_types::{ScalarKind, ScalarWord};

/// Whether `wider` may take the place of `kind`: each value of `kind` is one of `wider`, spelled
/// alike.
pub(crate) fn widens(kind: &ScalarKind, wider: &ScalarKind) -> bool
    ensures { IsTrue result ↔ Widens (kind_of kind.now) (kind_of wider.now) }
{
    match (kind, wider) {
        (ScalarKind::One(word), ScalarKind::One(wider)) => is_wider(*word, *wider),
        (ScalarKind::Packed(words), ScalarKind::Packed(more)) => {
            are_wider(words.as_slice(), more.as_slice())
        }
        _ => false,
    }
}

/// Whether the fields of a struct may give way to `more`: there are as many, and each may give way
/// to that at its place.
fn are_wider(words: &[ScalarWord], more: &[ScalarWord]) -> bool
    ensures { IsTrue result ↔ AreWider words.now more.now }
{
    if words.len() != more.len() {
        return false;
    }
    for (at, word) in words.iter().enumerate() {
        if !is_wider(*word, more[at]) {
            return false;
        }
    }
    true
}

/// Whether `word` may give way to `wider`.
fn is_wider(word: ScalarWord, wider: ScalarWord) -> bool
    ensures { IsTrue result ↔ IsIn wider (wider_words word) }
{
    match word {
        ScalarWord::Int32 | ScalarWord::Sint32 => matches!(
            wider,
            ScalarWord::Int32 | ScalarWord::Sint32 | ScalarWord::Int64 | ScalarWord::Sint64
        ),
        ScalarWord::Int64 | ScalarWord::Sint64 => {
            matches!(wider, ScalarWord::Int64 | ScalarWord::Sint64)
        }
        ScalarWord::Uint32 => matches!(wider, ScalarWord::Uint32 | ScalarWord::Uint64),
        word => word == wider,
    }
}
