//! Bytes, lists of atoms and contexts from texts, for the crates of tests, so that their tables
//! hold plain text. Bytes are digits, with a dash for none; atoms are bytes with blanks between
//! them, so that a dash among them is a marker.
#![tactic(auto)]

ghost use Rattle.std.specs.Prelude.{IfOk};
ghost use Rattle.context_model.specs.WellFormed.{IsWellFormed};
ghost use Rattle.text_lines.specs.HexLines.{IsHexOf};

use atom_list::{AtomList, Context};
use outside::ATOM_MAX;
use std::alloc::Global;
use std::test::Fail;
use text_lines::hex_bytes;

/// The bytes that a text says.
pub fn bytes_of(alloc: Global, digits: &str) -> Result<Vec<u8>, Fail>
    ensures { IfOk result (λ bytes. IsHexOf bytes.items digits.now) }
{
    Ok(hex_bytes(alloc, digits.as_bytes())?)
}

/// The list of these atoms.
pub fn list_of(alloc: Global, atoms: &str) -> Result<AtomList, Fail> {
    let mut list = AtomList::new(alloc);
    for word in atoms.split_whitespace() {
        let atom = hex_bytes(alloc, word.as_bytes())?;
        if ATOM_MAX < atom.len() {
            return Err(Fail::new("an atom is too long"));
        }
        list.push(&atom)?;
    }
    Ok(list)
}

/// The context of these atoms.
pub fn context_of(alloc: Global, atoms: &str) -> Result<Context, Fail>
    ensures { IfOk result IsWellFormed }
{
    match Context::check(list_of(alloc, atoms)?) {
        Ok(context) => Ok(context),
        Err((fault, at, _list)) => Err(Fail::new(format_args!("{fault:?} at {at} of {atoms}"))),
    }
}

/// Finds that the bytes are those that a text says, or fails.
pub fn expect_bytes(alloc: Global, bytes: &[u8], digits: &str) -> Result<(), Fail>
    ensures { IfOk result (λ _. IsHexOf bytes.now digits.now) }
{
    if bytes_of(alloc, digits)?.as_slice() == bytes {
        Ok(())
    } else {
        Err(Fail::new(format_args!("other bytes than {digits}")))
    }
}

/// Finds that a list has exactly these atoms, by their places and one by one, or fails.
pub fn expect_atoms(alloc: Global, list: &AtomList, atoms: &str) -> Result<(), Fail> {
    let mut words = atoms.split_whitespace();
    for atom in list.iter() {
        expect_bytes(alloc, atom, words.next().ok_or("an atom too many")?)?;
    }
    if words.next().is_none() && has_its_atoms_at_places(list) {
        Ok(())
    } else {
        Err(Fail::new(format_args!("other atoms than {atoms}")))
    }
}

/// Whether the atoms that a list has at its places are those that it shows one by one.
fn has_its_atoms_at_places(list: &AtomList) -> bool {
    let mut each = list.iter();
    for at in 0..list.len() {
        if list.get(at) != each.next() {
            return false;
        }
    }
    each.next().is_none() && list.get(list.len()).is_none() && list.is_empty() == (list.len() == 0)
}
