//! Small types over text, bytes and words, which contracts see as lists.

ghost use Rattle.std.specs.Prelude.{◌≡◌, List, [], ◌∷◌, ◌++◌, length, IfOk, OnOk, OnErr, IsUtf8, slice_get, IsTrue, ◌↔◌, string_bytes};
ghost use Rattle.std.specs.Iterator.{YieldsFirstRef, item_count};
ghost use Rattle.std.specs.Option.{option_copied};

use crate::answers::Memory;
use std::alloc::Global;
use std::marker::Model;
use std::slice;
use std::sync::Arc;

/// A text, which shares its characters with its copies. Contracts see it as the list of its bytes,
/// which are valid UTF-8.
#[derive(Debug, Drop)]
pub struct Text {
    string: Arc<String>,
}

impl Model for Text {
    ghost use Rattle.std.specs.Prelude.{ℕ, List, string_bytes};
    ghost use Rattle.std.specs.Arc.{arc_value};

    ghost Value = { List ℕ };

    ghost view = { λ text. string_bytes (arc_value text.string) };
}

impl Text {
    /// A text with these characters.
    pub fn of(alloc: Global, text: &str) -> Result<Text, Memory>
        ensures made { IfOk result (λ made. made ≡ text.now) }
        ensures utf8 { IfOk result IsUtf8 }
    {
        Text::from_string(String::from_str(alloc, text)?)
    }

    /// The text over this string, whose characters aren't copied.
    pub fn from_string(string: String) -> Result<Text, Memory>
        ensures made { IfOk result (λ made. made ≡ string_bytes string) }
        ensures utf8 { IfOk result IsUtf8 }
    {
        // for the proof: the bytes of a string are UTF-8
        let _utf8 = string.as_str();
        let alloc = *string.allocator();
        let string = Arc::new(alloc, string)?;
        Ok(Text { string })
    }

    /// The characters.
    pub fn as_str(&self) -> &str
        ensures value { result.now ≡ self.now }
        ensures utf8 { IsUtf8 self.now }
    {
        self.string.as_str()
    }

    /// The same text again. It takes constant time, and no memory for the characters, which the two
    /// share.
    pub fn copy(&self) -> Result<Text, Memory>
        ensures { IfOk result (λ made. made ≡ self.now) }
    {
        let string = Arc::try_clone(&self.string)?;
        Ok(Text { string })
    }
}

/// A byte string. Contracts see it as the list of its bytes.
#[derive(Debug, Drop)]
pub struct Octets {
    bytes: Vec<u8>,
}

impl Model for Octets {
    ghost use Rattle.std.specs.Prelude.{ℕ, List};

    ghost Value = { List ℕ };

    ghost view = { λ octets. octets.bytes.items };
}

impl Octets {
    /// The byte string with these bytes.
    pub fn of(alloc: Global, bytes: &[u8]) -> Result<Octets, Memory>
        ensures { IfOk result (λ made. made ≡ bytes.now) }
    {
        let bytes = Vec::from_slice(alloc, bytes)?;
        Ok(Octets { bytes })
    }

    /// The empty byte string. It takes no memory.
    pub fn empty(alloc: Global) -> Octets
        ensures { result ≡ [] }
    {
        Octets {
            bytes: Vec::new(alloc),
        }
    }

    /// The byte string over this vector, which isn't copied.
    pub fn from_vec(bytes: Vec<u8>) -> Octets
        ensures { result ≡ bytes.items }
    {
        Octets { bytes }
    }

    /// The bytes.
    pub fn as_slice(&self) -> &[u8]
        ensures { result.now ≡ self.now }
    {
        self.bytes.as_slice()
    }

    /// The same byte string again.
    pub fn copy(&self) -> Result<Octets, Memory>
        ensures { IfOk result (λ made. made ≡ self.now) }
    {
        let bytes = self.bytes.clone()?;
        Ok(Octets { bytes })
    }
}

/// A list of texts, such as the arguments of a command line.
#[derive(Debug, Drop)]
pub struct Words {
    words: Vec<Text>,
}

impl Model for Words {
    ghost use Rattle.std.specs.Prelude.{ℕ, List};

    ghost Value = { List (List ℕ) };

    ghost view = { λ words. words.words.items };
}

impl Words {
    /// No words.
    pub fn new(alloc: Global) -> Words
        ensures { result ≡ [] }
    {
        Words {
            words: Vec::new(alloc),
        }
    }

    /// How many words there are.
    pub fn len(&self) -> usize
        ensures { result ≡ length self.now }
    {
        self.words.len()
    }

    /// Whether there is no word.
    pub fn is_empty(&self) -> bool
        ensures { IsTrue result ↔ (self.now ≡ []) }
    {
        self.words.is_empty()
    }

    /// The word at a place, `None` where there is none.
    pub fn get(&self, at: usize) -> Option<&Text>
        ensures { option_copied result ≡ slice_get self.now at }
    {
        self.words.as_slice().get(at)
    }

    /// The words in order.
    pub fn iter(&self) -> WordIter<'_>
        ensures { result ≡ self.now }
    {
        WordIter {
            rest: self.words.iter(),
        }
    }

    /// Adds a word at the end. Where memory runs out, the list stays as it was.
    pub fn push(&mut self, word: Text) -> Result<(), Memory>
        ensures ok { OnOk result (self.new ≡ self.old ++ word ∷ []) }
        ensures err { OnErr result (self.new ≡ self.old) }
    {
        self.words.push(word)?;
        Ok(())
    }
}

/// The words that are left to go through. Contracts see it as their list.
#[derive(Debug, Drop)]
pub struct WordIter<'a> {
    rest: slice::Iter<'a, Text>,
}

impl<'a> Model for WordIter<'a> {
    ghost use Rattle.std.specs.Prelude.{ℕ, List};
    ghost use Rattle.std.specs.Slice.Iter.{iter_rest};

    ghost Value = { List (List ℕ) };

    ghost view = { λ words. iter_rest words.rest };
}

impl<'a> Iterator for WordIter<'a> {
    type Item = &'a Text;

    ghost next_gives = { YieldsFirstRef (λ words. words) };

    ghost remaining = { item_count (λ words. words) };

    fn next(&mut self) -> Option<&'a Text> {
        self.rest.next()
    }
}
