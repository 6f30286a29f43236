//! The words of scalars, as the definition language spells them.

ghost use Rattle.std.specs.Prelude.{◌≡◌};
ghost use Rattle.bag_model.specs.Words.{word_named, word_text};

/// A word that is the type of a scalar.
#[derive(Clone, Copy, Debug, PartialEq, Eq)]
pub enum ScalarWord {
    /// `bool`
    Bool,
    /// `int32`
    Int32,
    /// `int64`
    Int64,
    /// `sint32`
    Sint32,
    /// `sint64`
    Sint64,
    /// `uint32`
    Uint32,
    /// `uint64`
    Uint64,
    /// `fixed32`
    Fixed32,
    /// `fixed64`
    Fixed64,
    /// `sfixed32`
    Sfixed32,
    /// `sfixed64`
    Sfixed64,
    /// `string`
    Str,
    /// `bytes`
    Bytes,
}

impl ScalarWord {
    /// The word with this text, `None` exactly where there is none. The length of the text tells
    /// most words apart, so few bytes are looked at.
    #[tactic(auto, unfolding(crate::specs::Words::word_named))]
    pub fn of_bytes(text: &[u8]) -> Option<ScalarWord>
        ensures { result ≡ word_named text.now }
    {
        match text {
            b"bool" => Some(ScalarWord::Bool),
            b"int32" => Some(ScalarWord::Int32),
            b"int64" => Some(ScalarWord::Int64),
            b"sint32" => Some(ScalarWord::Sint32),
            b"sint64" => Some(ScalarWord::Sint64),
            b"uint32" => Some(ScalarWord::Uint32),
            b"uint64" => Some(ScalarWord::Uint64),
            b"fixed32" => Some(ScalarWord::Fixed32),
            b"fixed64" => Some(ScalarWord::Fixed64),
            b"sfixed32" => Some(ScalarWord::Sfixed32),
            b"sfixed64" => Some(ScalarWord::Sfixed64),
            b"string" => Some(ScalarWord::Str),
            b"bytes" => Some(ScalarWord::Bytes),
            _ => None,
        }
    }

    /// The text of the word.
    pub fn text(self) -> &'static str
        ensures { result.now ≡ word_text self }
    {
        match self {
            ScalarWord::Bool => "bool",
            ScalarWord::Int32 => "int32",
            ScalarWord::Int64 => "int64",
            ScalarWord::Sint32 => "sint32",
            ScalarWord::Sint64 => "sint64",
            ScalarWord::Uint32 => "uint32",
            ScalarWord::Uint64 => "uint64",
            ScalarWord::Fixed32 => "fixed32",
            ScalarWord::Fixed64 => "fixed64",
            ScalarWord::Sfixed32 => "sfixed32",
            ScalarWord::Sfixed64 => "sfixed64",
            ScalarWord::Str => "string",
            ScalarWord::Bytes => "bytes",
        }
    }
}
