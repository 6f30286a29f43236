//! How long the spellings of scalars are. Nothing here takes memory.

ghost use Rattle.std.specs.Prelude.{◌≡◌, ◌↔◌, ◌<◌, length, map, All, IsTrue};
ghost use Rattle.context_model.specs.declared.TheConstants.{ATOM_MAX as ATOM_LIMIT};
ghost use Rattle.bag_model.specs.Scalars.{ArePlainsOf, IsPlainOf, IsScalarOf, terminated, field_spelling, spelling_form_of, packed_spelling, plain_spelling, spelling};
ghost use Rattle.bag_model.specs.Scalars as model;
ghost use Rattle.scalar_types.specs.KindViews.{kind_of};
ghost use Rattle.scalar_types.specs.Scalars.{IsPlain, plain_of, value_of};
ghost use Rattle.bag_codec.specs.Lengths.{Leaves};

use lex_varint::{put_i64, put_u64};
use outside::ATOM_MAX;
use scalar_types::{Scalar, ScalarKind, ScalarWord};

/// The room that is left after bytes of a struct's field: each zero byte takes two bytes, and so
/// does the end.
fn behind_ended(room: usize, bytes: &[u8]) -> Option<usize>
    ensures { Leaves room (length (terminated bytes.now)) result }
{
    let mut left = room.checked_sub(2)?;
    for byte in bytes {
        left = left.checked_sub(if *byte == 0 { 2 } else { 1 })?;
    }
    Some(left)
}

/// How many bytes the spelling of a number with a sign has.
fn signed_length(word: ScalarWord, number: i64) -> usize
    requires { IsPlainOf word (model.Plain.Signed number) }
    ensures { result ≡ length
        (plain_spelling (spelling_form_of word) (model.Plain.Signed number)) }
{
    match word {
        ScalarWord::Sfixed32 => 4,
        ScalarWord::Sfixed64 => 8,
        _ => put_i64(number).as_slice().len(),
    }
}

/// How many bytes the spelling of a number without a sign has.
fn unsigned_length(word: ScalarWord, number: u64) -> usize
    requires { IsPlainOf word (model.Plain.Unsigned number) }
    ensures { result ≡ length
        (plain_spelling (spelling_form_of word) (model.Plain.Unsigned number)) }
{
    match word {
        ScalarWord::Fixed32 => 4,
        ScalarWord::Fixed64 => 8,
        _ => put_u64(number).as_slice().len(),
    }
}

/// The room that is left after a field of a struct.
fn behind_field(room: usize, word: ScalarWord, scalar: &Scalar) -> Option<usize>
    requires plain { IsPlain scalar.now }
    requires fits { IsPlainOf word (plain_of scalar.now) }
    ensures { Leaves room
        (length (field_spelling (spelling_form_of word)
        (plain_of scalar.now))) result }
{
    match scalar {
        Scalar::Bool(_) => room.checked_sub(1),
        Scalar::Signed(number) => room.checked_sub(signed_length(word, *number)),
        Scalar::Unsigned(number) => room.checked_sub(unsigned_length(word, *number)),
        Scalar::Str(text) => behind_ended(room, text.as_str().as_bytes()),
        Scalar::Bytes(bytes) => behind_ended(room, bytes.as_slice()),
        Scalar::Packed(_) => unreachable!(),
    }
}

/// The room that is left after the fields of a struct.
fn behind_fields(room: usize, words: &[ScalarWord], scalars: &[Scalar]) -> Option<usize>
    requires plain { All IsPlain scalars.now }
    requires fit { ArePlainsOf words.now (map plain_of scalars.now) }
    ensures { Leaves room
        (length (packed_spelling words.now (map plain_of scalars.now))) result }
{
    let mut left = room;
    for (at, word) in words.iter().enumerate() {
        left = behind_field(left, *word, &scalars[at])?;
    }
    Some(left)
}

/// Whether the spelling of a word's value leaves room in an atom for the atom's first byte.
fn is_short_word(word: ScalarWord, scalar: &Scalar) -> bool
    requires plain { IsPlain scalar.now }
    requires fits { IsPlainOf word (plain_of scalar.now) }
    ensures { IsTrue result
        ↔ (length (plain_spelling (spelling_form_of word) (plain_of scalar.now)) < ATOM_LIMIT) }
{
    match scalar {
        Scalar::Bool(_) => true,
        Scalar::Signed(number) => signed_length(word, *number) < ATOM_MAX,
        Scalar::Unsigned(number) => unsigned_length(word, *number) < ATOM_MAX,
        Scalar::Str(text) => text.as_str().len() < ATOM_MAX,
        Scalar::Bytes(bytes) => bytes.as_slice().len() < ATOM_MAX,
        Scalar::Packed(_) => unreachable!(),
    }
}

/// Whether the spelling of a scalar leaves room in an atom for the atom's first byte.
pub(crate) fn is_short(kind: &ScalarKind, scalar: &Scalar) -> bool
    requires { IsScalarOf (kind_of kind.now) (value_of scalar.now) }
    ensures { IsTrue result
        ↔ (length (spelling (kind_of kind.now) (value_of scalar.now)) < ATOM_LIMIT) }
{
    match (kind, scalar) {
        (ScalarKind::One(word), scalar) => is_short_word(*word, scalar),
        (ScalarKind::Packed(words), Scalar::Packed(scalars)) => {
            behind_fields(ATOM_MAX - 1, words.as_slice(), scalars.as_slice()).is_some()
        }
        (ScalarKind::Packed(_), _) => unreachable!(),
    }
}
