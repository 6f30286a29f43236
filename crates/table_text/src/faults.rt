//! Why a text is no table's.

ghost use Rattle.std.specs.Prelude.{◌≡◌};
ghost use Rattle.table_text.specs.Faults.{table_fault_at};

use outside::{Memory, OrMemory};
use std::error::Error;
use std::fmt;

/// The rule that a line breaks. At one line the first of these counts.
#[derive(Clone, Copy, Debug, PartialEq, Eq)]
pub enum TableCode {
    /// The first line isn't `baggage table 1`.
    Head,
    /// The line hasn't the form of a field's, or its line feed is missing.
    Form,
    /// The depth is greater than that of the line before it, and not one greater after a line that
    /// ends in `bag`; or the first depth isn't 0.
    Depth,
    /// The number isn't greater than that of the field before it in the same bag.
    Order,
    /// An earlier field of the same bag has the name.
    DuplicateField,
    /// The field's own header, or one that its shape puts under it, would be at a level that
    /// [`bag_model::LEVELS_MAX`] levels don't reach.
    TooDeep,
    /// The line comes after as many fields as [`bag_model::FIELDS_MAX`].
    TooManySlots,
}

/// Why a text is no table's: its first bad line, by its number from 1, and what is wrong with that.
#[derive(Clone, Copy, Debug, PartialEq, Eq)]
pub enum TableFault {
    /// The line breaks this rule.
    At { line: u64, code: TableCode },
    /// There is no memory for the table.
    Memory,
}

impl TableFault {
    /// The refusal of a text whose line with this number says no field for that reason.
    pub(crate) fn of_line(line: u64, refusal: OrMemory<TableCode>) -> TableFault
        ensures { result ≡ table_fault_at line refusal }
    {
        match refusal {
            OrMemory::Fault(code) => TableFault::At { line, code },
            OrMemory::Memory => TableFault::Memory,
        }
    }
}

impl From<TableCode> for OrMemory<TableCode> {
    ghost use Rattle.std.specs.Prelude.{◌≡◌};
    ghost use Rattle.outside.specs.declared.answers.OrMemory.TheVariants.{Fault};

    ghost from_gives = { λ code refusal. refusal ≡ Fault code };

    fn from(code: TableCode) -> OrMemory<TableCode> {
        OrMemory::Fault(code)
    }
}

impl From<Memory> for TableFault {
    ghost use Rattle.std.specs.Prelude.{◌≡◌};
    ghost use Rattle.table_text.specs.declared.faults.TableFault.TheVariants as table_faults;

    ghost from_gives = { λ _ fault. fault ≡ table_faults.Memory };

    fn from(_want: Memory) -> TableFault {
        TableFault::Memory
    }
}

impl fmt::Display for TableFault {
    ghost use Rattle.std.specs.Prelude.{Some};
    ghost use Rattle.table_text.specs.FaultTexts.{table_fault_text};

    ghost output = { λ fault. Some (table_fault_text fault) };

    fn fmt<W: fmt::Write>(&self, f: &mut fmt::Formatter<W>) -> fmt::Result {
        match self {
            TableFault::At { line, code } => write!(f, "line {line} {code}"),
            TableFault::Memory => write!(f, "out of memory"),
        }
    }
}

impl Error for TableFault {}

impl Error for TableCode {}

impl fmt::Display for TableCode {
    ghost use Rattle.std.specs.Prelude.{Some};
    ghost use Rattle.table_text.specs.Faults.{table_code_name};

    ghost output = { λ code. Some (table_code_name code) };

    fn fmt<W: fmt::Write>(&self, f: &mut fmt::Formatter<W>) -> fmt::Result {
        match self {
            TableCode::Head => write!(f, "Head"),
            TableCode::Form => write!(f, "Form"),
            TableCode::Depth => write!(f, "Depth"),
            TableCode::Order => write!(f, "Order"),
            TableCode::DuplicateField => write!(f, "DuplicateField"),
            TableCode::TooDeep => write!(f, "TooDeep"),
            TableCode::TooManySlots => write!(f, "TooManySlots"),
        }
    }
}
