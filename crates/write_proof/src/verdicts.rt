//! What a verdict is: yes, or a line and the rule that it breaks.

use std::error::Error;
use std::fmt;

/// The rule that a certificate breaks. The first six are for a line by itself, where the first of
/// them counts at the first line that breaks one. The last four are over all lines, and count after
/// those.
#[derive(Clone, Copy, Debug, PartialEq, Eq)]
pub enum VerifyCode {
    /// The line is of no kind that is allowed there (`why`, `value`, then lines `reach`, then lines
    /// `uses`), or hasn't the form of its kind, or its line feed is missing; or line 1 or 2 is
    /// missing.
    Form,
    /// The certificate's step is none of the graph.
    StepRange,
    /// The certificate's path is that of no slot.
    NoSuchPath,
    /// The step of a line `reach` or `uses` isn't above that of the line of its kind before, or is
    /// above the certificate's; or it is the certificate's, on a line `reach`.
    Order,
    /// The child on a line `reach` hasn't the line's step as a parent.
    NotParent,
    /// The step of a line `uses` neither writes nor receives a context.
    NotWrite,
    /// The child of a line `reach`, or the step of a line `uses`, is neither the certificate's step
    /// nor the step of a line `reach`.
    NotListed,
    /// A parent of the certificate's step (line 1), or of the step of a line `reach`, is the step
    /// of no line `reach`.
    Missing,
    /// The text on line 2 isn't that of the join of what the steps of the lines `uses` contribute.
    Value,
    /// The certificate's step (line 1), or the step of a line `reach`, contributes more than that
    /// join.
    TooMuch,
}

/// The verdict on a certificate.
#[derive(Clone, Copy, Debug, PartialEq, Eq)]
pub enum Verified {
    /// It tells the truth.
    Yes,
    /// It breaks this rule at the line with this number, from 1, the first that counts.
    No { line: u64, code: VerifyCode },
}

impl Error for VerifyCode {}

impl fmt::Display for VerifyCode {
    ghost use Rattle.std.specs.Prelude.{Some};
    ghost use Rattle.write_proof.specs.CodeNames.{verify_code_name};

    ghost output = { λ code. Some (verify_code_name code) };

    fn fmt<W: fmt::Write>(&self, f: &mut fmt::Formatter<W>) -> fmt::Result {
        match self {
            VerifyCode::Form => write!(f, "Form"),
            VerifyCode::StepRange => write!(f, "StepRange"),
            VerifyCode::NoSuchPath => write!(f, "NoSuchPath"),
            VerifyCode::Order => write!(f, "Order"),
            VerifyCode::NotParent => write!(f, "NotParent"),
            VerifyCode::NotWrite => write!(f, "NotWrite"),
            VerifyCode::NotListed => write!(f, "NotListed"),
            VerifyCode::Missing => write!(f, "Missing"),
            VerifyCode::Value => write!(f, "Value"),
            VerifyCode::TooMuch => write!(f, "TooMuch"),
        }
    }
}
