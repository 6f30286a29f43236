//! The names of the codes of definitions, as they are printed.

use crate::faults::{DefCode, DefFault, Fault};
use std::error::Error;
use std::fmt;

impl fmt::Display for DefCode {
    ghost use Rattle.std.specs.Prelude.{Some};
    ghost use Rattle.bdl_load.specs.CodeNames.{def_name};

    ghost output = { λ code. Some (def_name code) };

    fn fmt<W: fmt::Write>(&self, f: &mut fmt::Formatter<W>) -> fmt::Result {
        match self {
            DefCode::NotUtf8 => write!(f, "NotUtf8"),
            DefCode::BadByte => write!(f, "BadByte"),
            DefCode::OpenComment => write!(f, "OpenComment"),
            DefCode::OpenString => write!(f, "OpenString"),
            DefCode::NumberRange => write!(f, "NumberRange"),
            DefCode::Expected => write!(f, "Expected"),
            DefCode::TypeNesting => write!(f, "TypeNesting"),
            DefCode::NoFile => write!(f, "NoFile"),
            DefCode::ImportMissing => write!(f, "ImportMissing"),
            DefCode::ImportCycle => write!(f, "ImportCycle"),
            DefCode::TooManyFiles => write!(f, "TooManyFiles"),
            DefCode::DefTooLong => write!(f, "DefTooLong"),
            DefCode::DuplicateName => write!(f, "DuplicateName"),
            DefCode::EmptyStruct => write!(f, "EmptyStruct"),
            DefCode::FloatingType => write!(f, "FloatingType"),
            DefCode::UnknownName => write!(f, "UnknownName"),
            DefCode::BadKeyType => write!(f, "BadKeyType"),
            DefCode::BadStructField => write!(f, "BadStructField"),
            DefCode::DuplicateNumber => write!(f, "DuplicateNumber"),
            DefCode::DuplicateField => write!(f, "DuplicateField"),
            DefCode::Recursive => write!(f, "Recursive"),
            DefCode::NoSuchBag => write!(f, "NoSuchBag"),
            DefCode::TooDeep => write!(f, "TooDeep"),
            DefCode::TooManySlots => write!(f, "TooManySlots"),
        }
    }
}

impl Error for DefCode {}

impl fmt::Display for Fault {
    ghost use Rattle.std.specs.Prelude.{Some};
    ghost use Rattle.bdl_load.specs.FaultTexts.{place_text};

    ghost output = { λ fault. Some (place_text fault.file fault.line fault.column fault.code) };

    fn fmt<W: fmt::Write>(&self, f: &mut fmt::Formatter<W>) -> fmt::Result {
        write!(
            f,
            "{} {}:{} {}",
            self.file.as_str(),
            self.line,
            self.column,
            self.code
        )
    }
}

impl Error for Fault {}

impl fmt::Display for DefFault {
    ghost use Rattle.std.specs.Prelude.{Some};
    ghost use Rattle.bdl_load.specs.FaultTexts.{def_fault_text};

    ghost output = { λ fault. Some (def_fault_text fault) };

    fn fmt<W: fmt::Write>(&self, f: &mut fmt::Formatter<W>) -> fmt::Result {
        match self {
            DefFault::At {
                file,
                line,
                column,
                code,
            } => write!(f, "{} {line}:{column} {code}", file.as_str()),
            DefFault::Failed => write!(f, "failed outside"),
            DefFault::Memory => write!(f, "out of memory"),
        }
    }
}

impl Error for DefFault {}
