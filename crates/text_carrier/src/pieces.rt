//! The pieces that lines have said.

ghost use Rattle.std.specs.Prelude.{◌≡◌, ◌≢◌, ◌⊎◌, ◌↔◌, ◌<◌, ◌≤◌, ◌∷◌, ◌++◌, [], ℕ, List, IsTrue, length, map, IfOk, IfErr, OnOk};
ghost use Rattle.std.specs.List.{Contains};
ghost use Rattle.std.specs.Option.{option_map};
ghost use Rattle.base64.specs.GeneralPurpose.{IsBytes};
ghost use Rattle.text_lines.specs.Readings.{NoneOf};
ghost use Rattle.text_carrier.specs.Pieces.{Piece, data_text};
ghost use Rattle.text_carrier.specs.Rules.{PieceBreaks, IsGoodPiece, IsOtherCount, carry_rules};
ghost use Rattle.text_carrier.specs.Views.{IsTextAt, Keeps, IsData, IsPieceRefused, IsRefusedPieceLine, AreTextsOf, IsOrderFault};

use crate::PIECES_MAX;
use crate::data::decode;
use crate::faults::{CarryCode, CarryFault};
use crate::lines::{PieceLine, read_line};
use outside::{Memory, OrMemory};
use std::alloc::Global;
use std::collections::BTreeMap;

/// The pieces that lines have said so far. A piece is kept as the text of its bytes, once, so what
/// is kept is bounded by the lines and not by the number of pieces of which they speak.
#[derive(Drop)]
pub(crate) struct Pieces<'a> {
    /// The number of pieces, once there is a line.
    count: Option<u64>,
    /// The texts by the numbers of their pieces.
    texts: BTreeMap<u64, &'a [u8]>,
}

/// Whether there can't be `count` pieces, or none of them has this number.
fn is_out_of_range(place: u64, count: u64) -> bool
    ensures { IsTrue result ↔ ((count ≡ 0) ⊎ ((PIECES_MAX < count) ⊎ (count ≤ place))) }
{
    count == 0 || PIECES_MAX < count || count <= place
}

impl<'a> Pieces<'a> {
    /// No line has said a piece.
    pub(crate) fn new(alloc: Global) -> Pieces<'a>
        ensures { Keeps [] result }
    {
        Pieces {
            count: None,
            texts: BTreeMap::new(alloc),
        }
    }

    /// The text of the piece of this number, where a line has said it.
    fn text_at(&self, place: u64) -> Option<&'a [u8]>
        ensures { (said : List Piece) → Keeps said self.now
            → IsTextAt said place (option_map (λ text. text.now) result) }
    {
        self.texts.get(&place).copied()
    }

    /// Whether the first line speaks of another number of pieces.
    fn has_other_count(&self, count: u64) -> bool
        ensures { (said : List Piece) → Keeps said self.now
            → IsTrue result ↔ IsOtherCount said count }
    {
        match self.count {
            Some(first) => first != count,
            None => false,
        }
    }

    /// Whether a line says the piece of this number with another text.
    fn has_other_text(&self, place: u64, word: &[u8]) -> bool
        ensures { (said : List Piece) → Keeps said self.now → IsTrue result
            ↔ ((other : Piece) × Contains said other × (other.place ≡ place)
            × (data_text other.bytes ≢ word.now)) }
    {
        match self.text_at(place) {
            Some(text) => text != word,
            None => false,
        }
    }

    /// Whether what a line says breaks no rule.
    fn check(&self, alloc: Global, line: &PieceLine<'_>) -> Result<(), OrMemory<CarryCode>>
        requires { 0 < length line.now.word.now }
        ensures data { OnOk result (IsData line.now.word.now) }
        ensures ok { OnOk result ((said : List Piece) → Keeps said self.now
            → NoneOf (PieceBreaks said line.now.place line.now.count line.now.word.now) carry_rules) }
        ensures err { IfErr result (λ refusal. (said : List Piece) → Keeps said self.now
            → IsPieceRefused said line.now.place line.now.count line.now.word.now refusal) }
    {
        if is_out_of_range(line.place, line.count) {
            return Err(OrMemory::Fault(CarryCode::PieceRange));
        }
        if decode(alloc, line.word)?.is_none() {
            return Err(OrMemory::Fault(CarryCode::BadBase64));
        }
        if self.has_other_count(line.count) {
            return Err(OrMemory::Fault(CarryCode::OtherCount));
        }
        if self.has_other_text(line.place, line.word) {
            return Err(OrMemory::Fault(CarryCode::Clash));
        }
        Ok(())
    }

    /// Keeps the piece of a line that breaks no rule.
    fn keep(&mut self, line: PieceLine<'a>) -> Result<(), Memory>
        ensures { OnOk result ((said : List Piece) (bytes : List ℕ) → Keeps said self.old
            → NoneOf (PieceBreaks said line.entry.place line.entry.count line.entry.word.now) carry_rules
            → IsBytes bytes → line.entry.word.now ≡ data_text bytes
            → Keeps (said ++ record { place = line.entry.place; count = line.entry.count; bytes = bytes } ∷ []) self.new) }
    {
        self.count = Some(line.count);
        self.texts.insert(line.place, line.word)?;
        Ok(())
    }

    /// Adds what the next line says.
    pub(crate) fn add(&mut self, alloc: Global, text: &'a [u8]) -> Result<(), OrMemory<CarryCode>>
        ensures ok { OnOk result ((said : List Piece) → Keeps said self.old
            → (piece : Piece) × IsGoodPiece said text.now piece
            × Keeps (said ++ piece ∷ []) self.new) }
        ensures err { IfErr result
            (λ refusal. (said : List Piece) → Keeps said self.old
            → IsRefusedPieceLine said text.now refusal) }
    {
        let Some(line) = read_line(text) else {
            return Err(OrMemory::Fault(CarryCode::Form));
        };
        self.check(alloc, &line)?;
        self.keep(line)?;
        Ok(())
    }

    /// The texts of all pieces, in the order of their numbers.
    pub(crate) fn in_order(&self, alloc: Global) -> Result<Vec<&'a [u8]>, CarryFault>
        ensures ok { IfOk result (λ texts. (said : List Piece) → Keeps said self.now
            → (said ≢ []) × AreTextsOf said (map (λ text. text.now) texts.items)) }
        ensures err { IfErr result
            (λ fault. (said : List Piece) → Keeps said self.now → IsOrderFault said fault) }
    {
        let Some(count) = self.count else {
            return Err(CarryFault::NoLine);
        };
        let mut texts = Vec::new(alloc);
        for piece in 0..count {
            let Some(text) = self.text_at(piece) else {
                return Err(CarryFault::Missing { piece });
            };
            texts.push(text)?;
        }
        Ok(texts)
    }
}
