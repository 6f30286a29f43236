//! Literals of every kind of scalar.

ghost use Rattle.std.specs.Prelude.{◌≡◌, ℕ, ◌≤◌, ◌++◌, List, codes, length, IfOk, IfSome, IsTrue, ◌↔◌};
ghost use Rattle.std.specs.Option.{option_map};
ghost use Rattle.bag_model.specs.declared.words.ScalarWord.TheVariants.{Str};
ghost use Rattle.bag_model.specs.Scalars as scalars;
ghost use Rattle.bag_model.specs.Scalars.{IsPlainOf, IsScalarOf, ArePlainsOf, plain_bytes, spelling};
ghost use Rattle.scalar_types.specs.KindViews.{kind_of};
ghost use Rattle.scalar_types.specs.Scalars.{IsPlain, plain_of, value_of};
ghost use Rattle.text_lines.specs.Answers.{IsSomeOf};
ghost use Rattle.text_model.specs.Commas.{comma_before, comma_joined};
ghost use Rattle.field_writes.specs.Literals.{ArePlainTexts, HasNoSign, HasSign, IsLiteral, IsPlainText, IsScalarText, IsWriter, most_payload};
ghost use Rattle.field_writes.specs.Ends.{BeginsWithOne, TakesFront};

use crate::ends::{behind, is_end, split_at_stop};
use crate::numbers::{read_octets, read_signed, read_truth};
use crate::strings::take_string;
use context_model::{Form, LENGTH_MAX};
use outside::{ATOM_MAX, Memory, Octets};
use scalar_types::{Codec, Scalar, ScalarKind, ScalarList, ScalarWord};
use std::alloc::Global;
use text_lines::read_decimal;

/// The number of a word with a sign.
fn signed_of(word: ScalarWord, text: &[u8]) -> Option<Scalar>
    requires { HasSign word }
    ensures value { IsSomeOf (λ v. IsPlainOf word v × IsPlainText v text.now)
        (option_map plain_of result) }
    ensures plain { IfSome result IsPlain }
{
    let scalar = Scalar::Signed(read_signed(text)?);
    if ScalarKind::One(word).fits(&scalar) {
        Some(scalar)
    } else {
        None
    }
}

/// The number of a word without a sign.
fn unsigned_of(word: ScalarWord, text: &[u8]) -> Option<Scalar>
    requires { HasNoSign word }
    ensures value { IsSomeOf (λ v. IsPlainOf word v × IsPlainText v text.now)
        (option_map plain_of result) }
    ensures plain { IfSome result IsPlain }
{
    let scalar = Scalar::Unsigned(read_decimal(text)?);
    if ScalarKind::One(word).fits(&scalar) {
        Some(scalar)
    } else {
        None
    }
}

/// The value of a word that is no string's, as the whole text says it.
fn read_word(alloc: Global, word: ScalarWord, text: &[u8]) -> Result<Option<Scalar>, Memory>
    requires { word ≡ Str → ⊥ }
    ensures value { IfOk result
        (λ read. IsSomeOf (λ v. IsPlainOf word v × IsPlainText v text.now)
        (option_map plain_of read)) }
    ensures plain { IfOk result (λ read. IfSome read IsPlain) }
{
    match word {
        ScalarWord::Bool => Ok(read_truth(text).map(Scalar::Bool)),
        ScalarWord::Bytes => match read_octets(alloc, text)? {
            Some(bytes) => Ok(Some(Scalar::Bytes(bytes))),
            None => Ok(None),
        },
        ScalarWord::Int32
        | ScalarWord::Int64
        | ScalarWord::Sint32
        | ScalarWord::Sint64
        | ScalarWord::Sfixed32
        | ScalarWord::Sfixed64 => Ok(signed_of(word, text)),
        ScalarWord::Uint32 | ScalarWord::Uint64 | ScalarWord::Fixed32 | ScalarWord::Fixed64 => Ok(
            unsigned_of(word, text),
        ),
        ScalarWord::Str => unreachable!(),
    }
}

/// The value of a word that the text begins with, and the rest.
fn take_word<'a>(
    alloc: Global,
    word: ScalarWord,
    text: &'a [u8],
) -> Result<Option<(Scalar, &'a [u8])>, Memory>
    ensures value { IfOk result (λ taken.
        TakesFront (λ v rest.
        BeginsWithOne (λ front. IsPlainOf word v
        × IsPlainText v front) text.now rest)
        (option_map (λ taken. (plain_of taken.0, taken.1.now)) taken)) }
    ensures plain { IfOk result (λ taken. IfSome taken (λ taken. IsPlain taken.0)) }
{
    if let ScalarWord::Str = word {
        return match take_string(alloc, text)? {
            Some((string, rest)) => Ok(Some((Scalar::Str(string), rest))),
            None => Ok(None),
        };
    }
    let (front, rest) = split_at_stop(text);
    match read_word(alloc, word, front)? {
        Some(scalar) => Ok(Some((scalar, rest))),
        None => Ok(None),
    }
}

/// The text after the comma before the field that has `at` fields before it: there is none before
/// the first.
fn without_comma(at: usize, text: &[u8]) -> Option<&[u8]>
    ensures { IsSomeOf (λ rest. text.now ≡ comma_before at ++ rest)
        (option_map (λ rest. rest.now) result) }
{
    match text {
        _ if at == 0 => Some(text),
        [b',', rest @ ..] => Some(rest),
        _ => None,
    }
}

/// The values of a struct's fields, which the text after the opening parenthesis begins with, and
/// what follows the closing one.
fn take_fields<'a>(
    alloc: Global,
    words: &[ScalarWord],
    text: &'a [u8],
) -> Result<Option<(ScalarList, &'a [u8])>, Memory>
    ensures { IfOk result
        (λ taken. TakesFront
        (λ vs rest. (texts : List (List ℕ)) × ArePlainsOf words.now vs
        × ArePlainTexts vs texts × (text.now ≡ comma_joined texts ++ codes ")" ++ rest))
        (option_map (λ taken. (taken.0, taken.1.now)) taken)) }
{
    let mut fields = ScalarList::new(alloc);
    let mut rest = text;
    for (at, word) in words.iter().enumerate() {
        let Some(front) = without_comma(at, rest) else {
            return Ok(None);
        };
        let Some((field, more)) = take_word(alloc, *word, front)? else {
            return Ok(None);
        };
        fields.push(field)?;
        rest = more;
    }
    match behind(b')', rest) {
        Some(rest) => Ok(Some((fields, rest))),
        None => Ok(None),
    }
}

/// The values of a struct's fields that the text begins with, and the rest.
fn take_struct<'a>(
    alloc: Global,
    words: &[ScalarWord],
    text: &'a [u8],
) -> Result<Option<(ScalarList, &'a [u8])>, Memory>
    ensures { IfOk result
        (λ taken. TakesFront
        (λ vs rest. BeginsWithOne (λ front. ArePlainsOf words.now vs
        × IsScalarText (scalars.ScalarValue.Packed vs) front) text.now rest)
        (option_map (λ taken. (taken.0, taken.1.now)) taken)) }
{
    let Some(inside) = behind(b'(', text) else {
        return Ok(None);
    };
    let Some((fields, rest)) = take_fields(alloc, words, inside)? else {
        return Ok(None);
    };
    if is_end(rest) {
        Ok(Some((fields, rest)))
    } else {
        Ok(None)
    }
}

/// The scalar that the text begins with, of any size, and the rest.
fn take_scalar<'a>(
    alloc: Global,
    kind: &ScalarKind,
    text: &'a [u8],
) -> Result<Option<(Scalar, &'a [u8])>, Memory>
    ensures { IfOk result (λ taken.
        TakesFront (λ v rest.
        BeginsWithOne (λ front. IsScalarOf (kind_of kind.now) v
        × IsScalarText v front) text.now rest)
        (option_map (λ taken. (value_of taken.0, taken.1.now)) taken)) }
{
    match kind {
        ScalarKind::One(word) => match take_word(alloc, *word, text)? {
            Some((scalar, rest)) => Ok(Some((scalar, rest))),
            None => Ok(None),
        },
        ScalarKind::Packed(words) => match take_struct(alloc, words.as_slice(), text)? {
            Some((fields, rest)) => Ok(Some((Scalar::Packed(fields), rest))),
            None => Ok(None),
        },
    }
}

/// The most bytes of a payload or a key that is written where this form is asked for: those of an
/// atom except its first.
fn most_payload(form: Form) -> usize
    ensures { result ≡ most_payload form }
{
    match form {
        Form::One => LENGTH_MAX - 1,
        Form::Two => ATOM_MAX - 1,
    }
}

/// Whether an atom has room for the scalar, where this form is asked for.
fn is_short(alloc: Global, form: Form, kind: &ScalarKind, scalar: &Scalar) -> Result<bool, Memory>
    requires { IsScalarOf (kind_of kind.now) (value_of scalar.now) }
    ensures { IfOk result
        (λ short. IsTrue short
        ↔ (length (spelling (kind_of kind.now) (value_of scalar.now)) ≤ most_payload form)) }
{
    let mut payload = Vec::new(alloc);
    kind.put(scalar, &mut payload)?;
    Ok(payload.len() <= most_payload(form))
}

/// The literal of this kind that the text begins with, by its value, and the rest.
pub(crate) fn take_literal<'a>(
    alloc: Global,
    form: Form,
    kind: &ScalarKind,
    text: &'a [u8],
) -> Result<Option<(Scalar, &'a [u8])>, Memory>
    ensures { IfOk result
        (λ taken. TakesFront
        (λ v rest. BeginsWithOne (IsLiteral form (kind_of kind.now) v) text.now rest)
        (option_map (λ taken. (value_of taken.0, taken.1.now)) taken)) }
{
    let Some((scalar, rest)) = take_scalar(alloc, kind, text)? else {
        return Ok(None);
    };
    let short = is_short(alloc, form, kind, &scalar)?;
    if short {
        Ok(Some((scalar, rest)))
    } else {
        Ok(None)
    }
}

/// The value of which the text is a literal of this kind.
pub(crate) fn read_literal(
    alloc: Global,
    form: Form,
    kind: &ScalarKind,
    text: &[u8],
) -> Result<Option<Scalar>, Memory>
    ensures { IfOk result
        (λ read. IsSomeOf (λ v. IsLiteral form (kind_of kind.now) v text.now)
        (option_map value_of read)) }
{
    let Some((scalar, rest)) = take_literal(alloc, form, kind, text)? else {
        return Ok(None);
    };
    if rest.is_empty() {
        Ok(Some(scalar))
    } else {
        Ok(None)
    }
}

/// The bytes of a scalar that is a string or a byte string.
fn bytes_of(scalar: &Scalar) -> &[u8]
    ensures { result.now ≡ plain_bytes (plain_of scalar.now) }
{
    match scalar {
        Scalar::Str(text) => text.as_str().as_bytes(),
        Scalar::Bytes(bytes) => bytes.as_slice(),
        _ => &[],
    }
}

/// The writer that the text begins with, and the rest.
pub(crate) fn take_writer(
    alloc: Global,
    form: Form,
    text: &[u8],
) -> Result<Option<(Octets, &[u8])>, Memory>
    ensures { IfOk result
        (λ taken. TakesFront (λ bytes rest. BeginsWithOne (IsWriter form bytes) text.now rest)
        (option_map (λ taken. (taken.0, taken.1.now)) taken)) }
{
    let string = ScalarKind::One(ScalarWord::Str);
    if let Some((writer, rest)) = take_literal(alloc, form, &string, text)? {
        return Ok(Some((Octets::of(alloc, bytes_of(&writer))?, rest)));
    }
    let bytes = ScalarKind::One(ScalarWord::Bytes);
    match take_literal(alloc, form, &bytes, text)? {
        Some((writer, rest)) => Ok(Some((Octets::of(alloc, bytes_of(&writer))?, rest))),
        None => Ok(None),
    }
}
