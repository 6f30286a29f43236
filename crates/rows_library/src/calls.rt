//! A row, run.

use crate::answers::{run_check, run_slots};
use crate::fields::bytes_named;
use crate::places::{run_chosen, run_places};
use crate::rooms::run_written;
use row_files::{Reason, Row, RowFault, Told};
use std::alloc::Global;

/// What a row calls.
#[derive(Clone, Copy, PartialEq, Eq)]
pub enum Call {
    Check,
    Join,
    Update,
    Keep,
    Places,
    Chosen,
    Report,
    Read,
    Write,
    Slots,
    Evolve,
    Carry,
    Collect,
    Quote,
    ToHeader,
    Extract,
}

impl Call {
    /// What the row calls.
    fn of(row: Row<'_>) -> Result<Call, RowFault> {
        let field = row.needed("call")?;
        match field.text()? {
            "baggage_check" => Ok(Call::Check),
            "baggage_join" => Ok(Call::Join),
            "baggage_update" => Ok(Call::Update),
            "baggage_keep" => Ok(Call::Keep),
            "baggage_places" => Ok(Call::Places),
            "baggage_chosen_places" => Ok(Call::Chosen),
            "baggage_report" => Ok(Call::Report),
            "baggage_read_field" => Ok(Call::Read),
            "baggage_write_field" => Ok(Call::Write),
            "baggage_check_table" => Ok(Call::Slots),
            "baggage_evolve" => Ok(Call::Evolve),
            "baggage_carry" => Ok(Call::Carry),
            "baggage_collect" => Ok(Call::Collect),
            "baggage_quote" => Ok(Call::Quote),
            "baggage_to_header" => Ok(Call::ToHeader),
            "baggage_extract" => Ok(Call::Extract),
            _ => Err(field.fault(Reason::Word)),
        }
    }

    /// The names of the fields that such a row may have once.
    fn names(self) -> &'static [&'static str] {
        match self {
            Call::Check => &["call", "atoms", "refused"],
            Call::Join => &["call", "form", "budget", "bytes", "refused"],
            Call::Update => &[
                "call", "form", "table", "writes", "budget", "bytes", "refused",
            ],
            Call::Keep => &[
                "call", "form", "others", "table", "budget", "bytes", "refused",
            ],
            Call::Places | Call::Chosen => &["call", "table", "form", "places", "refused"],
            Call::Report => &["call", "as", "table", "out", "refused"],
            Call::Read => &["call", "table", "name", "out", "told", "refused"],
            Call::Write => &["call", "form", "table", "name", "text", "bytes", "refused"],
            Call::Slots => &["call", "table", "slots", "refused"],
            Call::Evolve => &["call", "table", "next", "out", "told", "refused"],
            Call::Carry => &["call", "width", "out", "refused"],
            Call::Collect => &["call", "lines", "bytes", "refused"],
            Call::Quote => &["call", "literal", "quoted", "out", "refused"],
            Call::ToHeader => &["call", "out", "refused"],
            Call::Extract => &["call", "form", "absent", "budget", "bytes", "told"],
        }
    }

    /// The names of the fields that such a row may have several times.
    fn repeated(self) -> &'static [&'static str] {
        match self {
            Call::Chosen => &["input", "slot"],
            _ => &["input"],
        }
    }

    /// What the call is to write: the field `out` as it is where the call writes text, and else the
    /// bytes of the field `bytes`.
    pub fn wanted(self, alloc: Global, row: Row<'_>) -> Result<Vec<u8>, RowFault> {
        match self {
            Call::Report | Call::Read | Call::Evolve | Call::Carry | Call::Quote | Call::ToHeader =>
                { Ok(Vec::from_slice(alloc, row.needed("out")?.value())?) }
            _ => bytes_named(alloc, row, "bytes"),
        }
    }
}

/// Runs a row, and reports what differs.
pub fn run_row(alloc: Global, row: Row<'_>, told: &mut Told<'_>) -> Result<(), RowFault> {
    let call = Call::of(row)?;
    row.check_names(call.names(), call.repeated())?;
    match call {
        Call::Check => run_check(alloc, row, told),
        Call::Slots => run_slots(alloc, row, told),
        Call::Places => run_places(alloc, row, told),
        Call::Chosen => run_chosen(alloc, row, told),
        _ => run_written(alloc, call, row, told),
    }
}
