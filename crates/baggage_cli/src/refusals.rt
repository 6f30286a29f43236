//! Why a command gives no output.

ghost use Rattle.std.specs.Prelude.{◌≡◌, IfOk, string_bytes};
ghost use Rattle.baggage_cli.specs.Refusals as spec;

use bdl_check::{DefCode, DefFault};
use graph_text::{GraphCode, GraphFault};
use outside::{Memory, Text};
use std::alloc::{AllocFailed, Global};
use std::fmt;
use table_text::TableCode;
use text_carrier::{CarryCode, CarryFault};
use text_lines::HexCode;
use wire_bytes::{ByteCode, ContextFault};

/// What is wrong with an input that is no fault of digits, bytes, pieces or a graph's line.
#[derive(Clone, Copy, Debug, PartialEq, Eq)]
pub enum InputCode {
    /// The input is longer than a command reads.
    TooLong,
    /// A command for one line has none.
    NoLine,
    /// A command for one line has a second one, which is this line.
    Form,
    /// The line is one more than a command reads.
    TooManyLines,
    /// The pieces that the lines say have more bytes in all than a command puts together.
    TooManyBytes,
    /// The budget is below the least that a list in the form of the line's bytes can be cut to.
    BudgetRange,
    /// The graph that the lines say has no step of the number that was asked for.
    StepRange,
    /// The table has no slot of the name path that was asked for.
    NoSuchPath,
    /// Something may have been cut off from the slot that was asked for, on the way to the step.
    Partial,
}

/// What is wrong with an input or a line of it.
#[derive(Clone, Copy, Debug, PartialEq, Eq)]
pub enum InputFault {
    /// One of the codes of this crate.
    Code(InputCode),
    /// The line isn't one of hexadecimal digits.
    Hex(HexCode),
    /// The line breaks this rule of a graph.
    Graph(GraphCode),
    /// The line breaks this rule of a piece.
    Piece(CarryCode),
    /// No line says the piece of this number, the least of those that are missing.
    Missing { piece: u64 },
    /// The bytes of the line, those that it receives, or at line 0 those that pieces say, cease
    /// after `offset` of them to be those of a list or a context.
    Bytes { offset: usize, code: ByteCode },
    /// The atom after `offset` of these bytes is no spelling of a value of the type that a table
    /// gives it.
    IllTyped { offset: u128 },
}

/// A refusal with nothing to say of the input: its line is always the same, and takes no memory.
#[derive(Clone, Copy, Debug, PartialEq, Eq)]
pub enum Notice {
    /// The library counted a fault.
    LibraryFailed,
    /// The source counted a fault.
    SourceFailed,
    /// The sink of the output, or that of the errors, counted a fault.
    SinkFailed,
    /// There is no memory for the work.
    Memory,
    /// The arguments ask for no command.
    WordsRefused,
}

/// Why a command gives no output.
#[derive(Debug, Drop)]
pub enum Refusal {
    /// A line of the input is bad. Line 0 is the input as a whole.
    Input {
        line: u64,
        fault: InputFault,
    },
    /// A definition has this first fault, at a line and a byte of that line of one of its files.
    Definition {
        file: Text,
        line: u32,
        column: u32,
        code: DefCode,
    },
    /// A line of the text of a table is the first bad one.
    Table {
        file: Text,
        line: u64,
        code: TableCode,
    },
    /// Nothing that the input or the definition is to blame for.
    Plain(Notice),
}

impl fmt::Display for InputCode {
    ghost use Rattle.std.specs.Prelude.{Some};
    ghost use Rattle.baggage_cli.specs.Refusals.{input_name};

    ghost output = { λ code. Some (input_name code) };

    fn fmt<W: fmt::Write>(&self, f: &mut fmt::Formatter<W>) -> fmt::Result {
        match self {
            InputCode::TooLong => write!(f, "TooLong"),
            InputCode::NoLine => write!(f, "NoLine"),
            InputCode::Form => write!(f, "Form"),
            InputCode::TooManyLines => write!(f, "TooManyLines"),
            InputCode::TooManyBytes => write!(f, "TooManyBytes"),
            InputCode::BudgetRange => write!(f, "BudgetRange"),
            InputCode::StepRange => write!(f, "StepRange"),
            InputCode::NoSuchPath => write!(f, "NoSuchPath"),
            InputCode::Partial => write!(f, "Partial"),
        }
    }
}

impl fmt::Display for InputFault {
    ghost use Rattle.std.specs.Prelude.{Some};
    ghost use Rattle.baggage_cli.specs.Refusals.{input_fault_text};

    ghost output = { λ fault. Some (input_fault_text fault) };

    fn fmt<W: fmt::Write>(&self, f: &mut fmt::Formatter<W>) -> fmt::Result {
        match self {
            InputFault::Code(code) => write!(f, "{code}"),
            InputFault::Hex(code) => write!(f, "{code}"),
            InputFault::Graph(code) => write!(f, "{code}"),
            InputFault::Piece(code) => write!(f, "{code}"),
            InputFault::Missing { piece } => write!(f, "Missing {piece}"),
            InputFault::Bytes { offset, code } => write!(f, "offset {offset} {code}"),
            InputFault::IllTyped { offset } => write!(f, "offset {offset} IllTyped"),
        }
    }
}

impl Refusal {
    /// The refusal of an input as a whole.
    pub(crate) fn of_input(code: InputCode) -> Refusal
        ensures { result ≡ spec.of_input code }
    {
        Refusal::Input {
            line: 0,
            fault: InputFault::Code(code),
        }
    }
}

/// The refusal of bytes that aren't those of a list or a context: of the line with this number, or
/// at line 0 those that pieces say.
pub(crate) fn misread(line: u64, fault: ContextFault) -> Refusal
    ensures { result ≡ spec.context_refusal line fault }
{
    match fault {
        ContextFault::At { offset, code } => Refusal::Input {
            line,
            fault: InputFault::Bytes { offset, code },
        },
        ContextFault::Memory => Refusal::Plain(Notice::Memory),
    }
}

impl From<Memory> for Refusal {
    ghost use Rattle.std.specs.Prelude.{◌≡◌};
    ghost use Rattle.baggage_cli.specs.declared.refusals.Notice.TheVariants.{Memory};
    ghost use Rattle.baggage_cli.specs.declared.refusals.Refusal.TheVariants.{Plain};

    ghost from_gives = { λ _ refusal. refusal ≡ Plain Memory };

    fn from(_want: Memory) -> Refusal {
        Refusal::Plain(Notice::Memory)
    }
}

impl<T: Drop> From<AllocFailed<T>> for Refusal {
    ghost use Rattle.std.specs.Prelude.{◌≡◌};
    ghost use Rattle.baggage_cli.specs.declared.refusals.Notice.TheVariants.{Memory};
    ghost use Rattle.baggage_cli.specs.declared.refusals.Refusal.TheVariants.{Plain};

    ghost from_gives = { λ _ refusal. refusal ≡ Plain Memory };

    fn from(_refused: AllocFailed<T>) -> Refusal {
        Refusal::Plain(Notice::Memory)
    }
}

impl From<DefFault> for Refusal {
    ghost use Rattle.std.specs.Prelude.{◌≡◌};
    ghost use Rattle.baggage_cli.specs.Refusals.{refusal_of};

    ghost from_gives = { λ fault refusal. refusal ≡ refusal_of fault };

    fn from(fault: DefFault) -> Refusal {
        match fault {
            DefFault::At {
                file,
                line,
                column,
                code,
            } => Refusal::Definition {
                file,
                line,
                column,
                code,
            },
            DefFault::Failed => Refusal::Plain(Notice::LibraryFailed),
            DefFault::Memory => Refusal::Plain(Notice::Memory),
        }
    }
}

impl From<GraphFault> for Refusal {
    ghost use Rattle.std.specs.Prelude.{◌≡◌};
    ghost use Rattle.baggage_cli.specs.Refusals.{graph_refusal};

    ghost from_gives = { λ fault refusal. refusal ≡ graph_refusal fault };

    fn from(fault: GraphFault) -> Refusal {
        match fault {
            GraphFault::At { line, code } => Refusal::Input {
                line,
                fault: InputFault::Graph(code),
            },
            GraphFault::Bytes { line, offset, code } => Refusal::Input {
                line,
                fault: InputFault::Bytes { offset, code },
            },
            GraphFault::IllTyped { line, offset } => Refusal::Input {
                line,
                fault: InputFault::IllTyped { offset },
            },
            GraphFault::Memory => Refusal::Plain(Notice::Memory),
        }
    }
}

impl From<CarryFault> for Refusal {
    ghost use Rattle.std.specs.Prelude.{◌≡◌};
    ghost use Rattle.baggage_cli.specs.Refusals.{piece_refusal};

    ghost from_gives = { λ fault refusal. refusal ≡ piece_refusal fault };

    fn from(fault: CarryFault) -> Refusal {
        match fault {
            CarryFault::At { line, code } => Refusal::Input {
                line,
                fault: InputFault::Piece(code),
            },
            CarryFault::NoLine => Refusal::of_input(InputCode::NoLine),
            CarryFault::Missing { piece } => Refusal::Input {
                line: 0,
                fault: InputFault::Missing { piece },
            },
            CarryFault::TooManyBytes => Refusal::of_input(InputCode::TooManyBytes),
            CarryFault::Memory => Refusal::Plain(Notice::Memory),
        }
    }
}

impl InputFault {
    /// The status that the program ends with.
    pub(crate) fn status(self) -> u8
        ensures { result ≡ spec.input_status self }
    {
        match self {
            InputFault::Code(_) => 2,
            InputFault::Hex(_) => 2,
            InputFault::Graph(_) => 2,
            InputFault::Piece(_) => 2,
            InputFault::Missing { .. } => 2,
            InputFault::Bytes { .. } => 3,
            InputFault::IllTyped { .. } => 3,
        }
    }

    /// What is wrong: the input, or bytes of it that aren't those of a typed list or context.
    fn subject(self) -> &'static str
        ensures { result.now ≡ spec.input_subject self }
    {
        match self {
            InputFault::Code(_) => "input",
            InputFault::Hex(_) => "input",
            InputFault::Graph(_) => "input",
            InputFault::Piece(_) => "input",
            InputFault::Missing { .. } => "input",
            InputFault::Bytes { .. } => "context",
            InputFault::IllTyped { .. } => "context",
        }
    }

    /// The line that says it of a line of an input.
    pub(crate) fn line(self, alloc: Global, line: u64) -> Result<String, Memory>
        ensures { IfOk result (λ said. string_bytes said ≡ spec.input_line line self) }
    {
        let subject = self.subject();
        Ok(format!(in alloc; "{subject} line {line} {}\n", self)?)
    }
}

/// The line that says what is wrong with a definition.
pub(crate) fn definition_line(
    alloc: Global,
    file: &str,
    line: u32,
    column: u32,
    code: DefCode,
) -> Result<String, Memory>
    ensures { IfOk result
        (λ said. string_bytes said ≡ spec.definition_line file.now line column code) }
{
    Ok(format!(in alloc; "definition {file} {line}:{column} {code}\n")?)
}

/// The line that says what is wrong with a printed table.
pub(crate) fn table_line(
    alloc: Global,
    file: &str,
    line: u64,
    code: TableCode,
) -> Result<String, Memory>
    ensures { IfOk result (λ said. string_bytes said ≡ spec.table_line file.now line code) }
{
    Ok(format!(in alloc; "definition {file} {line}:1 {code}\n")?)
}

impl Notice {
    /// The status that the program ends with.
    pub(crate) fn status(self) -> u8
        ensures { result ≡ spec.notice_status self }
    {
        match self {
            Notice::LibraryFailed => 4,
            Notice::SourceFailed => 4,
            Notice::SinkFailed => 5,
            Notice::Memory => 6,
            Notice::WordsRefused => 7,
        }
    }

    /// The line that says it.
    pub(crate) fn line(self) -> &'static str
        ensures { result.now ≡ spec.notice_line self }
    {
        match self {
            Notice::LibraryFailed => "library failed\n",
            Notice::SourceFailed => "source failed\n",
            Notice::SinkFailed => "sink failed\n",
            Notice::Memory => "memory\n",
            Notice::WordsRefused => "words refused\n",
        }
    }
}
