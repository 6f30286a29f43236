//! A merge that is cut to a budget.

ghost use Rattle.std.specs.Prelude.{◌≡◌, ◌<◌, ◌≤◌, List, ℕ, [], ◌∷◌, ◌++◌, MatchOption};
ghost use Rattle.context_model.specs.Atoms.{AreAtoms};
ghost use Rattle.context_model.specs.Framing.{least_budget, size_of, written_in};
ghost use Rattle.context_model.specs.Trimmed.{trimmed};
ghost use Rattle.byte_forward.specs.Merging.{IsToCome, IsFramePiece};
ghost use Rattle.byte_forward.specs.Cutting.{IsUnderWay};

use crate::merging::{Merging, Piece};
use wire_bytes::{Form, LENGTH_MAX};

/// What is still to come of a merge that is cut to a budget: its frames, and a marker where
/// something is cut off.
#[derive(Clone, Copy, Debug)]
pub(crate) struct Cut<'a> {
    pub(crate) form: Form, // that is asked for
    pub(crate) budget: u64,
    merging: Merging<'a>,
    written: Form, // that the frames that are past are written in
    left: u64, // of the budget
}

/// How long a cut merge is, and the form that it is written in.
#[derive(Clone, Copy, Debug)]
pub(crate) struct Measure {
    pub(crate) size: u64,
    pub(crate) written: Form,
}

impl<'a> Cut<'a> {
    /// The merge that is cut to this budget where this form is asked for.
    pub(crate) fn of(form: Form, merging: Merging<'a>, budget: u64) -> Cut<'a>
        requires { least_budget form ≤ budget }
        ensures form { result.form ≡ form }
        ensures budget { result.budget ≡ budget }
        ensures list { (list : List (List ℕ)) → IsToCome merging.entry list → AreAtoms list
            → IsUnderWay [] result (trimmed form list budget) }
    {
        Cut {
            form,
            budget,
            merging,
            written: form,
            left: budget - form.head_len() as u64,
        }
    }

    /// The next frame, which is then past.
    pub(crate) fn take(&mut self) -> Option<Piece<'a>>
        requires { (past list : List (List ℕ)) × IsUnderWay past self.old list }
        ensures form { self.new.form ≡ self.old.form }
        ensures budget { self.new.budget ≡ self.old.budget }
        ensures next { (past list : List (List ℕ)) → IsUnderWay past self.old list
            → MatchOption result
            ((list ≡ []) × (self.new.written ≡ self.old.written) × (self.new.left ≡ self.old.left))
            (λ piece. (rest : List (List ℕ)) × (list ≡ piece.frame.atom.now ∷ rest)
            × IsFramePiece piece
            × IsUnderWay (past ++ piece.frame.atom.now ∷ []) self.new rest
            × (self.new.left < self.old.left)) }
    {
        let piece = self.merging.take()?;
        let mut written = self.written;
        let mut cost = piece.frame.bytes.len() as u64;
        if LENGTH_MAX < piece.frame.atom.len() {
            // The first that is too long for form one brings a head.
            cost += (Form::Two.head_len() - written.head_len()) as u64;
            written = Form::Two;
        }
        // Where another frame follows, a byte is kept for a marker.
        let kept = if self.merging.is_over() { 0 } else { 1 };
        if self.left < cost + kept {
            self.merging.end();
            self.left -= 1;
            return Some(Piece::marker());
        }
        self.written = written;
        self.left -= cost;
        Some(piece)
    }

    /// How long it is, and the form that it is written in: one look at each frame within the
    /// budget.
    pub(crate) fn measure(self) -> Measure
        requires { (list : List (List ℕ)) × IsUnderWay [] self list }
        ensures { (list : List (List ℕ)) × IsUnderWay [] self.entry list
            × (result.size ≡ size_of self.entry.form list)
            × (result.written ≡ written_in self.entry.form list) }
    {
        let mut cut = self;
        while cut.take().is_some() {}
        Measure {
            size: cut.budget - cut.left,
            written: cut.written,
        }
    }
}
