//! Two contexts side by side: the frames of their merge, one after another.

ghost use Rattle.std.specs.Prelude.{◌≡◌, ◌↔◌, List, ℕ, [], ◌∷◌, IsTrue, MatchOption};
ghost use Rattle.context_model.specs.ContextFault.{IsContextOf};
ghost use Rattle.context_model.specs.GreedyMerge.{greedy_merge};
ghost use Rattle.context_model.specs.Orders.{atom_cmp};
ghost use Rattle.byte_forward.specs.Merging.{IsAhead, IsToCome, IsFramePiece};

use atom_kinds::compare;
use byte_frames::{Frame, Frames};
use std::cmp::Ordering;
use wire_bytes::Form;

/// The frames of one context, the next of which is known.
#[derive(Clone, Copy, Debug)]
struct Ahead<'a> {
    next: Option<Frame<'a>>,
    behind: Frames<'a>,
}

/// A frame, and the form of the bytes that it is in.
#[derive(Clone, Copy, Debug)]
pub(crate) struct Piece<'a> {
    pub(crate) form: Form,
    pub(crate) frame: Frame<'a>,
}

/// What is still to come of the merge of two contexts.
#[derive(Clone, Copy, Debug)]
pub(crate) struct Merging<'a> {
    first: Ahead<'a>,
    second: Ahead<'a>,
}

impl<'a> Piece<'a> {
    /// A marker.
    #[tactic(auto, unfolding(context_model::specs::Framing::base_128))]
    pub(crate) fn marker() -> Piece<'a>
        ensures atom { result.frame.atom.now ≡ [] }
        ensures piece { IsFramePiece result }
    {
        Piece {
            form: Form::One,
            frame: Frame {
                bytes: &[0],
                atom: &[],
            },
        }
    }
}

impl<'a> Ahead<'a> {
    /// The frames of the context of these bytes.
    fn of(context: &'a [u8]) -> Ahead<'a>
        ensures { (list : List (List ℕ)) → IsContextOf list context.now → IsAhead result list }
    {
        let mut behind = Frames::of(context);
        let next = behind.next_frame();
        Ahead { next, behind }
    }

    /// The next frame, which is then past.
    fn take(&mut self) -> Option<Piece<'a>>
        ensures { (list : List (List ℕ)) → IsAhead self.old list → MatchOption result
            (list ≡ [])
            (λ piece. (rest : List (List ℕ)) × (list ≡ piece.frame.atom.now ∷ rest)
            × IsFramePiece piece × IsAhead self.new rest) }
    {
        let frame = self.next?;
        let form = self.behind.form;
        self.next = self.behind.next_frame();
        Some(Piece { form, frame })
    }
}

impl<'a> Merging<'a> {
    /// The merge of the contexts of these bytes.
    pub(crate) fn of(first: &'a [u8], second: &'a [u8]) -> Merging<'a>
        ensures { (a b : List (List ℕ)) → IsContextOf a first.now → IsContextOf b second.now
            → IsToCome result (greedy_merge atom_cmp a b) }
    {
        Merging {
            first: Ahead::of(first),
            second: Ahead::of(second),
        }
    }

    /// Whether no frame is left.
    pub(crate) fn is_over(&self) -> bool
        ensures { (list : List (List ℕ)) → IsToCome self.now list → IsTrue result ↔ (list ≡ []) }
    {
        self.first.next.is_none() && self.second.next.is_none()
    }

    /// Leaves no frame.
    pub(crate) fn end(&mut self)
        ensures { IsToCome self.new [] }
    {
        self.first.next = None;
        self.second.next = None;
    }

    /// The next frame, which is then past: the lesser of the two that come next, and both where
    /// they are the same atom.
    pub(crate) fn take(&mut self) -> Option<Piece<'a>>
        ensures { (list : List (List ℕ)) → IsToCome self.old list → MatchOption result
            (list ≡ [])
            (λ piece. (rest : List (List ℕ)) × (list ≡ piece.frame.atom.now ∷ rest)
            × IsFramePiece piece × IsToCome self.new rest) }
    {
        let Some(first) = self.first.next else {
            return self.second.take();
        };
        let Some(second) = self.second.next else {
            return self.first.take();
        };
        match compare(first.atom, second.atom) {
            Ordering::Less => self.first.take(),
            Ordering::Greater => self.second.take(),
            Ordering::Equal => {
                self.second.take();
                self.first.take()
            }
        }
    }
}
