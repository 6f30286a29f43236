//! Lists of atoms that calls answer, as row files have them, beside those that they are to answer.

use atom_list::AtomList;
use row_files::{Row, RowFault, Told};
use std::alloc::Global;
use text_lines::push_hex;

/// The atoms of a list.
fn atoms_text(alloc: Global, list: &AtomList) -> Result<Vec<u8>, RowFault> {
    let mut text = Vec::new(alloc);
    for atom in list.iter() {
        if !text.is_empty() {
            text.push(b' ')?;
        }
        push_hex(&mut text, atom)?;
    }
    Ok(text)
}

/// Tells where a list hasn't the atoms that the field of this name says.
pub fn expect_atoms(
    alloc: Global,
    name: &'static str,
    list: &AtomList,
    row: Row<'_>,
    told: &mut Told<'_>,
) -> Result<(), RowFault> {
    let text = atoms_text(alloc, list)?;
    told.expect_bytes(name, &text, row.needed(name)?.value())?;
    Ok(())
}
