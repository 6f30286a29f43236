//! The codecs of the words: alone, and as fields of a struct.

ghost use Rattle.std.specs.Prelude.{◌≡◌, ℕ, List, ◌++◌, IfOk, OnOk, OnErr, IfSome, IsNone, IsTrue, ◌↔◌, false};
ghost use Rattle.bag_model.specs.Scalars.{Plain, spelling_form_of, needs_end, IsOfForm, plain_spelling, field_spelling};
ghost use Rattle.scalar_types.specs.Codec.{Spells, IsSpelled};
ghost use Rattle.scalar_types.specs.Fronts.{Begins, BeginsWithSome};
ghost use Rattle.scalar_types.specs.Scalars.{IsPlain, plain_of};
ghost use Rattle.scalar_types.specs.WordCodecs.{codec_spelling_form};

use crate::codec::{Codec, TakeFault};
use crate::escapes::{put_ended, skip_ended, take_ended};
use crate::fixed_codecs::{Fixed, SignedFixed};
use crate::fronts::Front;
use crate::plain_codecs::{Flag, Raw, Utf8};
use crate::scalars::Scalar;
use crate::varint_codecs::{LexI, LexU};
use bag_model::ScalarWord;
use outside::{Memory, Octets};
use std::alloc::Global;

/// The codec that a word's values go by.
#[derive(Clone, Copy, Debug)]
pub enum WordCodec {
    Flag(Flag),
    LexU(LexU),
    LexI(LexI),
    Fixed(Fixed),
    SignedFixed(SignedFixed),
    Utf8(Utf8),
    Raw(Raw),
}

impl WordCodec {
    /// The codec of a word.
    pub(crate) fn of(word: ScalarWord) -> WordCodec
        ensures { codec_spelling_form result ≡ spelling_form_of word }
    {
        match word {
            ScalarWord::Bool => WordCodec::Flag(Flag),
            ScalarWord::Int32 => WordCodec::LexI(LexI { wide: false }),
            ScalarWord::Int64 => WordCodec::LexI(LexI { wide: true }),
            ScalarWord::Sint32 => WordCodec::LexI(LexI { wide: false }),
            ScalarWord::Sint64 => WordCodec::LexI(LexI { wide: true }),
            ScalarWord::Uint32 => WordCodec::LexU(LexU { wide: false }),
            ScalarWord::Uint64 => WordCodec::LexU(LexU { wide: true }),
            ScalarWord::Fixed32 => WordCodec::Fixed(Fixed { wide: false }),
            ScalarWord::Fixed64 => WordCodec::Fixed(Fixed { wide: true }),
            ScalarWord::Sfixed32 => WordCodec::SignedFixed(SignedFixed { wide: false }),
            ScalarWord::Sfixed64 => WordCodec::SignedFixed(SignedFixed { wide: true }),
            ScalarWord::Str => WordCodec::Utf8(Utf8),
            ScalarWord::Bytes => WordCodec::Raw(Raw),
        }
    }

    /// Whether the value has the codec's form and is in its range.
    pub fn fits(&self, value: &Scalar) -> bool
        ensures { IsTrue result
            ↔ (IsPlain value.now × IsOfForm (codec_spelling_form self.now) (plain_of value.now)) }
    {
        match (self, value) {
            (WordCodec::Flag(codec), Scalar::Bool(truth)) => codec.fits(truth),
            (WordCodec::LexU(codec), Scalar::Unsigned(number)) => codec.fits(number),
            (WordCodec::LexI(codec), Scalar::Signed(number)) => codec.fits(number),
            (WordCodec::Fixed(codec), Scalar::Unsigned(number)) => codec.fits(number),
            (WordCodec::SignedFixed(codec), Scalar::Signed(number)) => codec.fits(number),
            (WordCodec::Utf8(codec), Scalar::Str(text)) => codec.fits(text),
            (WordCodec::Raw(codec), Scalar::Bytes(bytes)) => codec.fits(bytes),
            _ => false,
        }
    }

    /// Appends the value's spelling.
    pub fn put(&self, value: &Scalar, into: &mut Vec<u8>) -> Result<(), Memory>
        requires plain { IsPlain value.now }
        requires fits { IsOfForm (codec_spelling_form self.now) (plain_of value.now) }
        ensures ok { OnOk result
            (into.new.items ≡ into.old.items
            ++ plain_spelling (codec_spelling_form self.now) (plain_of value.now)) }
        ensures err { OnErr result (into.new.items ≡ into.old.items) }
    {
        match (self, value) {
            (WordCodec::Flag(codec), Scalar::Bool(truth)) => codec.put(truth, into),
            (WordCodec::LexU(codec), Scalar::Unsigned(number)) => codec.put(number, into),
            (WordCodec::LexI(codec), Scalar::Signed(number)) => codec.put(number, into),
            (WordCodec::Fixed(codec), Scalar::Unsigned(number)) => codec.put(number, into),
            (WordCodec::SignedFixed(codec), Scalar::Signed(number)) => codec.put(number, into),
            (WordCodec::Utf8(codec), Scalar::Str(text)) => codec.put(text, into),
            (WordCodec::Raw(codec), Scalar::Bytes(bytes)) => codec.put(bytes, into),
            _ => unreachable!(),
        }
    }

    /// Whether the bytes are some value's spelling.
    pub fn spelled(&self, bytes: &[u8]) -> bool
        ensures { IsTrue result
            ↔ IsSpelled (IsOfForm (codec_spelling_form self.now))
            (plain_spelling (codec_spelling_form self.now)) bytes.now }
    {
        match self {
            WordCodec::Flag(codec) => codec.spelled(bytes),
            WordCodec::LexU(codec) => codec.spelled(bytes),
            WordCodec::LexI(codec) => codec.spelled(bytes),
            WordCodec::Fixed(codec) => codec.spelled(bytes),
            WordCodec::SignedFixed(codec) => codec.spelled(bytes),
            WordCodec::Utf8(codec) => codec.spelled(bytes),
            WordCodec::Raw(codec) => codec.spelled(bytes),
        }
    }

    /// The value whose spelling is the whole slice.
    pub fn take(&self, alloc: Global, bytes: &[u8]) -> Result<Scalar, TakeFault>
        ensures plain { IfOk result IsPlain }
        ensures taken { IfOk result
            (λ value. Spells (IsOfForm (codec_spelling_form self.now))
            (plain_spelling (codec_spelling_form self.now)) bytes.now (plain_of value)) }
        ensures refused { result ≡ Err TakeFault.NotSpelled
            → ¬ IsSpelled (IsOfForm (codec_spelling_form self.now))
            (plain_spelling (codec_spelling_form self.now)) bytes.now }
    {
        match self {
            WordCodec::Flag(codec) => Ok(Scalar::Bool(codec.take(alloc, bytes)?)),
            WordCodec::LexU(codec) => Ok(Scalar::Unsigned(codec.take(alloc, bytes)?)),
            WordCodec::LexI(codec) => Ok(Scalar::Signed(codec.take(alloc, bytes)?)),
            WordCodec::Fixed(codec) => Ok(Scalar::Unsigned(codec.take(alloc, bytes)?)),
            WordCodec::SignedFixed(codec) => Ok(Scalar::Signed(codec.take(alloc, bytes)?)),
            WordCodec::Utf8(codec) => Ok(Scalar::Str(codec.take(alloc, bytes)?)),
            WordCodec::Raw(codec) => Ok(Scalar::Bytes(codec.take(alloc, bytes)?)),
        }
    }

    /// Appends the value as a field of a struct.
    pub fn put_field(&self, value: &Scalar, into: &mut Vec<u8>) -> Result<(), Memory>
        requires plain { IsPlain value.now }
        requires fits { IsOfForm (codec_spelling_form self.now) (plain_of value.now) }
        ensures { OnOk result
            (into.new.items ≡ into.old.items
            ++ field_spelling (codec_spelling_form self.now) (plain_of value.now)) }
    {
        match (self, value) {
            (WordCodec::Utf8(_), Scalar::Str(text)) => put_ended(text.as_str().as_bytes(), into),
            (WordCodec::Raw(_), Scalar::Bytes(bytes)) => put_ended(bytes.as_slice(), into),
            _ => self.put(value, into),
        }
    }

    /// The value whose field begins these bytes, and what follows it.
    pub fn take_field<'a>(
        &self,
        alloc: Global,
        bytes: &'a [u8],
    ) -> Result<(Scalar, &'a [u8]), TakeFault>
        ensures plain { IfOk result (λ read. IsPlain read.0) }
        ensures taken { IfOk result
            (λ read. Begins (IsOfForm (codec_spelling_form self.now))
            (field_spelling (codec_spelling_form self.now)) bytes.now
            (plain_of read.0) read.1.now) }
        ensures refused { result ≡ Err TakeFault.NotSpelled
            → ¬ BeginsWithSome (IsOfForm (codec_spelling_form self.now))
            (field_spelling (codec_spelling_form self.now)) bytes.now }
    {
        match self {
            WordCodec::Utf8(codec) => {
                let (text, rest) = take_ended(alloc, bytes)?;
                Ok((Scalar::Str(codec.take_owned(text)?), rest))
            }
            WordCodec::Raw(_) => {
                let (bytes, rest) = take_ended(alloc, bytes)?;
                Ok((Scalar::Bytes(Octets::from_vec(bytes)), rest))
            }
            _ => self.number_front(bytes).ok_or(TakeFault::NotSpelled),
        }
    }

    /// What follows the field of a value that begins these bytes. It takes no memory.
    pub fn skip_field<'a>(&self, bytes: &'a [u8]) -> Option<&'a [u8]>
        ensures found { IfSome result
            (λ rest. (value : Plain)
            × Begins (IsOfForm (codec_spelling_form self.now))
            (field_spelling (codec_spelling_form self.now)) bytes.now value rest.now) }
        ensures none { IsNone result
            → ¬ BeginsWithSome (IsOfForm (codec_spelling_form self.now))
            (field_spelling (codec_spelling_form self.now)) bytes.now }
    {
        match self {
            WordCodec::Utf8(_) => skip_ended(true, bytes),
            WordCodec::Raw(_) => skip_ended(false, bytes),
            _ => {
                let (_, rest) = self.number_front(bytes)?;
                Some(rest)
            }
        }
    }

    /// The truth value or number that begins these bytes, and what follows it.
    fn number_front<'a>(&self, bytes: &'a [u8]) -> Option<(Scalar, &'a [u8])>
        requires { needs_end (codec_spelling_form self.now) ≡ false }
        ensures plain { IfSome result (λ read. IsPlain read.0) }
        ensures found { IfSome result
            (λ read. Begins (IsOfForm (codec_spelling_form self.now))
            (plain_spelling (codec_spelling_form self.now)) bytes.now
            (plain_of read.0) read.1.now) }
        ensures none { IsNone result
            → ¬ BeginsWithSome (IsOfForm (codec_spelling_form self.now))
            (plain_spelling (codec_spelling_form self.now)) bytes.now }
    {
        match self {
            WordCodec::Flag(codec) => {
                let (truth, rest) = codec.front(bytes)?;
                Some((Scalar::Bool(truth), rest))
            }
            WordCodec::LexU(codec) => {
                let (number, rest) = codec.front(bytes)?;
                Some((Scalar::Unsigned(number), rest))
            }
            WordCodec::LexI(codec) => {
                let (number, rest) = codec.front(bytes)?;
                Some((Scalar::Signed(number), rest))
            }
            WordCodec::Fixed(codec) => {
                let (number, rest) = codec.front(bytes)?;
                Some((Scalar::Unsigned(number), rest))
            }
            WordCodec::SignedFixed(codec) => {
                let (number, rest) = codec.front(bytes)?;
                Some((Scalar::Signed(number), rest))
            }
            WordCodec::Utf8(_) => unreachable!(),
            WordCodec::Raw(_) => unreachable!(),
        }
    }
}
