//! The words of the definition language.

ghost use Rattle.std.specs.Prelude.{◌≡◌, IfOk, true};
ghost use Rattle.std.specs.Option.{is_some, option_map};
ghost use Rattle.std.specs.Str.{IsUtf8, bytes_eq};
ghost use Rattle.bag_model.specs.Words.{reserved_among, reserved_of, is_word, is_name};
ghost use Rattle.bdl_parser.specs.declared.trees.Spot.{Spot};
ghost use Rattle.bdl_parser.specs.Trees.{leaf};
ghost use Rattle.bdl_parser.specs.Views.{tree_at};
ghost use Rattle.bdl_parser.specs.ReservedWords.{in_code, reserved_scalars};
ghost use Rattle.bdl_parser.specs.Words.{holding_of, leaf_of};

use crate::trees::{Holding, TypeForm};
use bag_model::ScalarWord;
use outside::{Memory, Text};
use std::alloc::Global;
use std::str;

/// Whether the bytes are this word.
pub(crate) fn is(text: &[u8], word: &str) -> bool
    ensures { result ≡ bytes_eq text.now word.now }
{
    text == word.as_bytes()
}

/// A reserved word.
#[derive(Clone, Copy)]
pub(crate) enum Reserved {
    Import,
    Bag,
    Struct,
    Set,
    Greatest,
    Map,
    Counter,
    Taint,
    Float,
    Double,
    Scalar(ScalarWord),
}

impl Reserved {
    ghost use Rattle.bdl_parser.specs.ReservedWords.{leaf_in_code};

    /// The type that the word is by itself, if it is one.
    fn form(self) -> Option<TypeForm>
        ensures some { is_some result ≡ is_some (leaf_in_code self) }
        ensures form { (spot : Spot) → option_map (λ form. tree_at spot form) result
            ≡ option_map (λ found. leaf found spot) (leaf_in_code self) }
    {
        match self {
            Reserved::Scalar(word) => Some(TypeForm::Scalar(word)),
            Reserved::Float => Some(TypeForm::Float),
            Reserved::Double => Some(TypeForm::Double),
            Reserved::Taint => Some(TypeForm::Taint),
            Reserved::Counter => Some(TypeForm::Counter),
            _ => None,
        }
    }
}

/// The scalar word with these bytes.
#[tactic(auto, using(bag_model::proofs::WordTexts::reserved_scalar))]
fn scalar_word(text: &[u8]) -> Option<Reserved>
    ensures { result ≡ option_map in_code (reserved_among text.now reserved_scalars) }
{
    match ScalarWord::of_bytes(text) {
        Some(word) => Some(Reserved::Scalar(word)),
        None => None,
    }
}

/// The reserved word with these bytes.
#[tactic(auto, unfolding(bag_model::specs::Words::reserved_of))]
fn reserved_word(text: &[u8]) -> Option<Reserved>
    ensures { result ≡ option_map in_code (reserved_of text.now) }
{
    if is(text, "import") {
        Some(Reserved::Import)
    } else if is(text, "bag") {
        Some(Reserved::Bag)
    } else if is(text, "struct") {
        Some(Reserved::Struct)
    } else if is(text, "set") {
        Some(Reserved::Set)
    } else if is(text, "greatest") {
        Some(Reserved::Greatest)
    } else if is(text, "map") {
        Some(Reserved::Map)
    } else if is(text, "counter") {
        Some(Reserved::Counter)
    } else if is(text, "taint") {
        Some(Reserved::Taint)
    } else if is(text, "float") {
        Some(Reserved::Float)
    } else if is(text, "double") {
        Some(Reserved::Double)
    } else {
        scalar_word(text)
    }
}

/// Whether the word is a name.
#[tactic(auto, using(crate::proofs::NameLaws::name_unless_reserved))]
pub(crate) fn is_name(text: &[u8]) -> bool
    requires { is_word text.now ≡ true }
    ensures { result ≡ is_name text.now }
{
    reserved_word(text).is_none()
}

/// Whether the word is a type by itself.
pub(crate) fn is_leaf(text: &[u8]) -> bool
    requires { is_word text.now ≡ true }
    ensures { result ≡ is_some (leaf_of text.now) }
{
    match reserved_word(text) {
        Some(word) => word.form().is_some(),
        None => true,
    }
}

/// How a type that begins with the word holds its elements, if it has any.
pub(crate) fn holding(text: &[u8]) -> Option<Holding>
    ensures { result ≡ holding_of text.now }
{
    if is(text, "set") {
        Some(Holding::AsSet)
    } else if is(text, "greatest") {
        Some(Holding::AsGreatest)
    } else {
        None
    }
}

/// A text with these characters.
pub(crate) fn text_with(alloc: Global, bytes: &[u8]) -> Result<Text, Memory>
    requires { IsUtf8 bytes.now }
    ensures { IfOk result (λ made. made ≡ bytes.now) }
{
    match str::from_utf8(bytes) {
        Ok(text) => Text::of(alloc, text),
        Err(_) => unreachable!(),
    }
}

/// What a type of this word is, if the word is one.
pub(crate) fn leaf_form(alloc: Global, text: &[u8]) -> Result<Option<TypeForm>, Memory>
    requires utf8 { IsUtf8 text.now }
    requires word { is_word text.now ≡ true }
    ensures { IfOk result (λ found. (spot : Spot) → option_map (λ form. tree_at spot form) found
        ≡ option_map (λ found. leaf found spot) (leaf_of text.now)) }
{
    match reserved_word(text) {
        Some(word) => Ok(word.form()),
        None => Ok(Some(TypeForm::Name(text_with(alloc, text)?))),
    }
}
