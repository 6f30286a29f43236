//! Why a text says no graph.

ghost use Rattle.std.specs.Prelude.{◌≡◌};
ghost use Rattle.graph_text.specs.Reading.{graph_fault_at};

use outside::OrMemory;
use std::error::Error;
use std::fmt;
use wire_bytes::ByteCode;

/// The rule that a line breaks. At one line the first of these counts.
#[derive(Clone, Copy, Debug, PartialEq, Eq)]
pub enum GraphCode {
    /// The line isn't UTF-8, or has none of the forms.
    Form,
    /// The number of a step isn't that of the steps before it.
    StepNumber,
    /// A parent, or a step to be shown, is no step before the line.
    NoSuchStep,
    /// A step goes to a service that isn't declared before it.
    NoSuchService,
    /// A service is declared that was declared before.
    DuplicateService,
    /// The parents of a join aren't all at one service.
    WrongService,
    /// A write's path is no slot's, or a view's path no field's that is reached through bags.
    NoSuchPath,
    /// A write is to a slot that the service doesn't know.
    NotKnown,
    /// A write's text is no write of the slot's shape in the form of its step's service.
    BadValue,
    /// A budget is below the least of the form of its step's service, or above
    /// [`crate::BUDGET_MAX`].
    BudgetRange,
    /// A step comes after as many as [`recorded_graph::STEPS_MAX`].
    TooManySteps,
    /// A join has more parents than [`crate::PARENTS_MAX`].
    TooManyParents,
    /// What is received has more digits than [`text_lines::DIGITS_MAX`].
    HexTooLong,
    /// What is received is neither a dash nor pairs of hexadecimal digits.
    BadHex,
}

/// What is wrong with a line.
#[derive(Clone, Copy, Debug, PartialEq, Eq)]
pub enum LineFault {
    /// It breaks this rule.
    Code(GraphCode),
    /// The bytes that it receives are those of no context.
    Bytes { offset: usize, code: ByteCode },
    /// The atom after `offset` bytes of what it receives is no spelling of a value of the type that
    /// the table gives it.
    IllTyped { offset: u128 },
}

/// Why a text says no graph: its first bad line, by its number from 1, and what is wrong with that.
#[derive(Clone, Copy, Debug, PartialEq, Eq)]
pub enum GraphFault {
    /// The line breaks this rule.
    At {
        line: u64,
        code: GraphCode,
    },
    /// The bytes that the line receives are those of no context.
    Bytes {
        line: u64,
        offset: usize,
        code: ByteCode,
    },
    /// The atom after `offset` bytes of what the line receives is ill typed.
    IllTyped {
        line: u64,
        offset: u128,
    },
    /// There is no memory for the graph.
    Memory,
}

impl GraphFault {
    /// The refusal of a text whose line with this number is refused for that reason.
    pub(crate) fn of_line(line: u64, refusal: OrMemory<LineFault>) -> GraphFault
        ensures { result ≡ graph_fault_at line refusal }
    {
        match refusal {
            OrMemory::Fault(LineFault::Code(code)) => GraphFault::At { line, code },
            OrMemory::Fault(LineFault::Bytes { offset, code }) => {
                GraphFault::Bytes { line, offset, code }
            }
            OrMemory::Fault(LineFault::IllTyped { offset }) => GraphFault::IllTyped {
                line,
                offset,
            },
            OrMemory::Memory => GraphFault::Memory,
        }
    }
}

impl From<GraphCode> for OrMemory<LineFault> {
    ghost use Rattle.std.specs.Prelude.{◌≡◌};
    ghost use Rattle.graph_text.specs.declared.faults.LineFault.TheVariants.{Code};
    ghost use Rattle.outside.specs.declared.answers.OrMemory.TheVariants.{Fault};

    ghost from_gives = { λ code refusal. refusal ≡ Fault (Code code) };

    fn from(code: GraphCode) -> OrMemory<LineFault> {
        OrMemory::Fault(LineFault::Code(code))
    }
}

impl fmt::Display for LineFault {
    ghost use Rattle.std.specs.Prelude.{Some};
    ghost use Rattle.graph_text.specs.FaultTexts.{line_fault_text};

    ghost output = { λ fault. Some (line_fault_text fault) };

    fn fmt<W: fmt::Write>(&self, f: &mut fmt::Formatter<W>) -> fmt::Result {
        match self {
            LineFault::Code(code) => write!(f, "{code}"),
            LineFault::Bytes { offset, code } => write!(f, "offset {offset} {code}"),
            LineFault::IllTyped { offset } => write!(f, "offset {offset} IllTyped"),
        }
    }
}

impl Error for LineFault {}

impl fmt::Display for GraphFault {
    ghost use Rattle.std.specs.Prelude.{Some};
    ghost use Rattle.graph_text.specs.FaultTexts.{graph_fault_text};

    ghost output = { λ fault. Some (graph_fault_text fault) };

    fn fmt<W: fmt::Write>(&self, f: &mut fmt::Formatter<W>) -> fmt::Result {
        match self {
            GraphFault::At { line, code } => write!(f, "line {line} {code}"),
            GraphFault::Bytes { line, offset, code } => write!(
                f,
                "line {line} offset {offset} {code}"
            ),
            GraphFault::IllTyped { line, offset } => write!(
                f,
                "line {line} offset {offset} IllTyped"
            ),
            GraphFault::Memory => write!(f, "out of memory"),
        }
    }
}

impl Error for GraphFault {}

impl Error for GraphCode {}

impl fmt::Display for GraphCode {
    ghost use Rattle.std.specs.Prelude.{Some};
    ghost use Rattle.graph_text.specs.Faults.{graph_code_name};

    ghost output = { λ code. Some (graph_code_name code) };

    fn fmt<W: fmt::Write>(&self, f: &mut fmt::Formatter<W>) -> fmt::Result {
        match self {
            GraphCode::Form => write!(f, "Form"),
            GraphCode::StepNumber => write!(f, "StepNumber"),
            GraphCode::NoSuchStep => write!(f, "NoSuchStep"),
            GraphCode::NoSuchService => write!(f, "NoSuchService"),
            GraphCode::DuplicateService => write!(f, "DuplicateService"),
            GraphCode::WrongService => write!(f, "WrongService"),
            GraphCode::NoSuchPath => write!(f, "NoSuchPath"),
            GraphCode::NotKnown => write!(f, "NotKnown"),
            GraphCode::BadValue => write!(f, "BadValue"),
            GraphCode::BudgetRange => write!(f, "BudgetRange"),
            GraphCode::TooManySteps => write!(f, "TooManySteps"),
            GraphCode::TooManyParents => write!(f, "TooManyParents"),
            GraphCode::HexTooLong => write!(f, "HexTooLong"),
            GraphCode::BadHex => write!(f, "BadHex"),
        }
    }
}
