//! Kinds of scalars, and the lists of words that structs are.

ghost use Rattle.std.specs.Prelude.{◌≡◌, [], ◌∷◌, ◌++◌, length, IfOk, OnOk, OnErr, IsTrue, ◌↔◌, slice_get};

use bag_model::ScalarWord;
use outside::Memory;
use std::alloc::Global;
use std::marker::Model;
use std::sync::Arc;

/// The type of a scalar: a word of the definition language, or a struct of words.
#[derive(Debug, Drop)]
pub enum ScalarKind {
    /// A word by itself.
    One(ScalarWord),
    /// A struct, by the words of its fields.
    Packed(KindList),
}

/// A list of words, those of a struct's fields.
#[derive(Debug, Drop)]
pub struct KindList {
    held: HeldWords,
}

/// The words of one list alone, or those that it shares with its copies.
#[derive(Debug, Drop)]
enum HeldWords {
    Own(Vec<ScalarWord>),
    Shared(Arc<Vec<ScalarWord>>),
}

impl Model for KindList {
    ghost use Rattle.std.specs.Prelude.{List};
    ghost use Rattle.bag_model.specs.Scalars.{Word};

    ghost Value = { List Word };

    ghost use Rattle.scalar_types.specs.Kinds.{words_in};

    ghost view = { λ list. words_in list.held };
}

impl KindList {
    /// No words. It takes no memory.
    pub fn new(alloc: Global) -> KindList
        ensures { result ≡ [] }
    {
        KindList {
            held: HeldWords::Own(Vec::new(alloc)),
        }
    }

    /// How many words there are.
    pub fn len(&self) -> usize
        ensures { result ≡ length self.now }
    {
        self.as_slice().len()
    }

    /// Whether there is no word.
    pub fn is_empty(&self) -> bool
        ensures { IsTrue result ↔ (self.now ≡ []) }
    {
        self.as_slice().is_empty()
    }

    /// The word at this place, from 0 on.
    pub fn get(&self, at: usize) -> Option<ScalarWord>
        ensures { result ≡ slice_get self.now at }
    {
        self.as_slice().get(at).copied()
    }

    /// The words in order.
    pub fn as_slice(&self) -> &[ScalarWord]
        ensures { result.now ≡ self.now }
    {
        match &self.held {
            HeldWords::Own(words) => words.as_slice(),
            HeldWords::Shared(words) => words.as_slice(),
        }
    }

    /// Adds a word at the end. Where memory runs out, the list stays as it was. A list that is
    /// shared is copied first, and isn't shared any more.
    pub fn push(&mut self, word: ScalarWord) -> Result<(), Memory>
        ensures ok { OnOk result (self.new ≡ self.old ++ word ∷ []) }
        ensures err { OnErr result (self.new ≡ self.old) }
    {
        match &mut self.held {
            HeldWords::Own(words) => words.push(word)?,
            HeldWords::Shared(words) => {
                let mut own = copy_words(words)?;
                own.push(word)?;
                self.held = HeldWords::Own(own);
            }
        }
        Ok(())
    }

    /// The same list, whose copies share its words from now on.
    pub fn shared(self) -> Result<KindList, Memory>
        ensures { IfOk result (λ list. list ≡ self) }
    {
        let held = match self.held {
            HeldWords::Own(words) => {
                let alloc = *words.allocator();
                HeldWords::Shared(Arc::new(alloc, words)?)
            }
            HeldWords::Shared(words) => HeldWords::Shared(words),
        };
        Ok(KindList { held })
    }

    /// The same list again. A copy of a shared list takes constant time and no memory.
    pub fn copy(&self) -> Result<KindList, Memory>
        ensures { IfOk result (λ copied. copied ≡ self.now) }
    {
        let held = match &self.held {
            HeldWords::Own(words) => HeldWords::Own(copy_words(words)?),
            HeldWords::Shared(words) => HeldWords::Shared(Arc::try_clone(words)?),
        };
        Ok(KindList { held })
    }
}

/// The same words again.
fn copy_words(words: &Vec<ScalarWord>) -> Result<Vec<ScalarWord>, Memory>
    ensures { IfOk result (λ copied. copied.items ≡ words.now.items) }
{
    let mut copied = Vec::with_capacity(*words.allocator(), words.len())?;
    copied.extend_from_slice(words)?;
    Ok(copied)
}

impl ScalarKind {
    /// The same kind again.
    pub fn copy(&self) -> Result<ScalarKind, Memory>
        ensures { IfOk result (λ copied. copied ≡ self.now) }
    {
        match self {
            ScalarKind::One(word) => Ok(ScalarKind::One(*word)),
            ScalarKind::Packed(words) => Ok(ScalarKind::Packed(words.copy()?)),
        }
    }

    /// Whether two kinds are the same. Of a struct each field counts.
    pub fn is_same(&self, other: &ScalarKind) -> bool
        ensures { IsTrue result ↔ (self.now ≡ other.now) }
    {
        match (self, other) {
            (ScalarKind::One(word), ScalarKind::One(other)) => word == other,
            (ScalarKind::Packed(words), ScalarKind::Packed(others)) => {
                words.as_slice() == others.as_slice()
            }
            _ => false,
        }
    }
}
