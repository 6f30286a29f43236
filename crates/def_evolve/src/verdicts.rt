//! What comes of a comparison of two tables.

use outside::Text;
use std::fmt;

/// Why a field of an old table may not become what a new table says.
#[derive(Clone, Copy, Debug, PartialEq, Eq)]
pub enum Change {
    /// It is of another variant.
    Shape,
    /// The keys of a map are of a kind that isn't wider.
    Key,
    /// The values are of a kind that isn't wider.
    Kind,
}

/// A step from a field to one inside it.
#[derive(Clone, Copy, Debug, PartialEq, Eq)]
pub enum Part {
    /// To the field of a bag with this number.
    Number(u16),
    /// From a map to its values.
    MapValue,
}

/// What comes of a comparison.
#[derive(Debug, Drop)]
pub enum Verdict {
    /// Each field that both tables have may become what the new one says; `common` slots are in
    /// both.
    Fits { common: u64 },
    /// The first field that may not, by the numbers on the way to it joined by dots, with `*` for
    /// the values of a map.
    Breaks { path: Text, change: Change },
}

impl fmt::Display for Change {
    ghost use Rattle.std.specs.Prelude.{Some};
    ghost use Rattle.def_evolve.specs.Verdicts.{change_name};

    ghost output = { λ change. Some (change_name change) };

    fn fmt<W: fmt::Write>(&self, f: &mut fmt::Formatter<W>) -> fmt::Result {
        match self {
            Change::Shape => write!(f, "Shape"),
            Change::Key => write!(f, "Key"),
            Change::Kind => write!(f, "Kind"),
        }
    }
}

impl fmt::Display for Verdict {
    ghost use Rattle.std.specs.Prelude.{Some};
    ghost use Rattle.def_evolve.specs.Verdicts.{verdict_text};

    ghost output = { λ verdict. Some (verdict_text verdict) };

    fn fmt<W: fmt::Write>(&self, f: &mut fmt::Formatter<W>) -> fmt::Result {
        match self {
            Verdict::Fits { common } => write!(f, "ok {common}"),
            Verdict::Breaks { path, change } => write!(f, "breaks {} {change}", path.as_str()),
        }
    }
}
