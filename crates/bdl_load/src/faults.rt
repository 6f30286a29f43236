//! Why a definition is refused.

ghost use Rattle.std.specs.Prelude.{◌≡◌};
ghost use Rattle.bdl_load.specs.Faults.{Blames, found, fault_in};

use bdl_parser::Spot;
use outside::{LibraryFault, Memory, OrMemory, Text};
use std::alloc::Global;

/// What is wrong with a definition.
#[derive(Clone, Copy, Debug, PartialEq, Eq)]
pub enum DefCode {
    /// The bytes from here on aren't UTF-8.
    NotUtf8,
    /// No token, blank or comment begins with this byte.
    BadByte,
    /// A `/*` without a `*/` after it.
    OpenComment,
    /// A `"` without another on its line.
    OpenString,
    /// A number above [`NUMBER_MAX`](bdl_lexer::NUMBER_MAX).
    NumberRange,
    /// No module goes on with this token, or none ends here.
    Expected,
    /// Here a type begins inside [`NESTING_MAX`](bdl_parser::NESTING_MAX) others.
    TypeNesting,
    /// There is no file of the definition's name.
    NoFile,
    /// There is no file of an import's name.
    ImportMissing,
    /// A file imports itself, perhaps by way of others.
    ImportCycle,
    /// A definition of more than [`FILES_MAX`](crate::FILES_MAX) files.
    TooManyFiles,
    /// A file of more than [`SOURCE_MAX`](bdl_lexer::SOURCE_MAX) bytes.
    DefTooLong,
    /// An earlier declaration has this name.
    DuplicateName,
    /// A struct without fields.
    EmptyStruct,
    /// A `float` or a `double`.
    FloatingType,
    /// No declaration has this name.
    UnknownName,
    /// The elements of a set, the keys of a map, or what a field keeps the greatest of, can't be of
    /// this type.
    BadKeyType,
    /// A struct's field can't be of this type.
    BadStructField,
    /// An earlier field of the bag has this number.
    DuplicateNumber,
    /// An earlier field of the declaration has this name.
    DuplicateField,
    /// A bag that contains itself.
    Recursive,
    /// No bag has the name that was asked for.
    NoSuchBag,
    /// A header of the bag would have a level above 15.
    TooDeep,
    /// The bag has more than 16,384 fields, those inside them counted.
    TooManySlots,
}

/// A fault at a place of a file.
#[derive(Clone, Copy, Debug, PartialEq, Eq)]
pub struct Finding {
    pub at: Spot,
    pub code: DefCode,
}

/// A fault with its file, its line and its byte of that line, both from 1 on.
#[derive(Debug, Drop)]
pub struct Fault {
    pub file: Text,
    pub line: u32,
    pub column: u32,
    pub code: DefCode,
}

/// Why there is no table.
#[derive(Debug, Drop)]
pub enum DefFault {
    /// The first fault, with its file, its line and its byte of that line, both from 1 on.
    At {
        file: Text,
        line: u32,
        column: u32,
        code: DefCode,
    },
    /// The library counted a fault.
    Failed,
    /// There is no memory for the table.
    Memory,
}

/// Line 1, column 1: where a file begins.
pub const FIRST_SPOT: Spot = Spot { line: 1, column: 1 };

impl From<Fault> for DefFault {
    ghost use Rattle.std.specs.Prelude.{◌≡◌};
    ghost use Rattle.bdl_load.specs.declared.faults.DefFault.TheVariants.{At};

    ghost from_gives = { λ fault answer.
        answer ≡ At fault.file fault.line fault.column fault.code };

    fn from(fault: Fault) -> DefFault {
        DefFault::At {
            file: fault.file,
            line: fault.line,
            column: fault.column,
            code: fault.code,
        }
    }
}

impl From<Memory> for DefFault {
    ghost use Rattle.std.specs.Prelude.{◌≡◌};
    ghost use Rattle.bdl_load.specs.declared.faults.DefFault.TheVariants.{Memory};

    ghost from_gives = { λ _ answer. answer ≡ Memory };

    fn from(_memory: Memory) -> DefFault {
        DefFault::Memory
    }
}

impl From<LibraryFault> for DefFault {
    ghost use Rattle.std.specs.Prelude.{◌≡◌};
    ghost use Rattle.bdl_load.specs.Faults.{of_library};

    ghost from_gives = { λ fault answer. answer ≡ of_library fault };

    fn from(fault: LibraryFault) -> DefFault {
        match fault {
            LibraryFault::Failed => DefFault::Failed,
            LibraryFault::Memory => DefFault::Memory,
        }
    }
}

impl From<OrMemory<Fault>> for DefFault {
    ghost use Rattle.bdl_load.specs.Faults.{IsAnswerOf};

    ghost from_gives = { IsAnswerOf };

    fn from(refusal: OrMemory<Fault>) -> DefFault {
        match refusal {
            OrMemory::Fault(fault) => DefFault::from(fault),
            OrMemory::Memory => DefFault::Memory,
        }
    }
}

/// The refusal for the fault of that code at that place of the file.
pub(crate) fn blame(alloc: Global, file: &str, at: Spot, code: DefCode) -> DefFault
    ensures says { Blames (λ fault. fault ≡ fault_in file.now (found at code)) result }
    ensures inside { result ≡ DefFault.Failed → ⊥ }
{
    match Text::of(alloc, file) {
        Ok(file) => DefFault::At {
            file,
            line: at.line,
            column: at.column,
            code,
        },
        Err(_) => DefFault::Memory,
    }
}
