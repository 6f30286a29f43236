//! Tables from definitions, for the crates of tests.
#![tactic(auto)]

use bdl_check::compile;
use field_table::Table;
use outside::SureLibrary;
use std::alloc::Global;
use std::test::Fail;

/// The table of a bag of a definition that is in one file and has no fault.
pub fn table_of(alloc: Global, definition: &str, bag: &str) -> Result<Table, Fail> {
    let mut library = SureLibrary::new(alloc);
    library.add("bags.bdl", definition.as_bytes())?;
    match compile(alloc, &mut library, "bags.bdl", bag) {
        Ok(table) => Ok(table),
        Err(_) => Err(Fail::new(format_args!("no table of {bag}: {definition}"))),
    }
}
