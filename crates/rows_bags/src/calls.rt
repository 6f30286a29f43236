//! A row, run.

use crate::cases::Case;
use crate::encodings::run_encode;
use crate::fields::table_of;
use crate::normal_forms::{run_normal, run_states};
use crate::readings::{run_bottom, run_decode, run_join};
use crate::tables::{run_field_number, run_find, run_slots};
use row_files::{Reason, Row, RowFault, Told};
use std::alloc::Global;

/// Runs a row, and tells what differs.
pub fn run_row(alloc: Global, row: Row<'_>, told: &mut Told<'_>) -> Result<(), RowFault> {
    let field = row.needed("call")?;
    let call = field.text()?;
    let table = table_of(alloc, row)?;
    let table = &table;
    let case = Case { alloc, table, row };
    match call {
        "decode" => run_decode(case, told),
        "bottom" => run_bottom(case, told),
        "join" => run_join(case, told),
        "encode" => run_encode(case, told),
        "normal" => run_normal(case, told),
        "states" => run_states(case, told),
        "slots" => run_slots(case, told),
        "find" => run_find(case, told),
        "field_number" => run_field_number(case, told),
        _ => Err(field.fault(Reason::Word)),
    }
}
