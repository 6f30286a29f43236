//! The search for the next field of a bag that the list has. A walk by it looks at the fields that
//! are there, and not at all that the bag may have.

ghost use Rattle.std.specs.Prelude.{◌≡◌, ℕ, ◌+◌, ◌≤◌, length, IfOk, IfErr, IfSome, MatchOption};
ghost use Rattle.bag_model.specs.Shapes.{Field};
ghost use Rattle.bag_model.specs.Tables.{AreFields, levels};
ghost use Rattle.field_table.specs.Tables.{Bag, KeptBag, IsReady};
ghost use Rattle.field_table.specs.Plain.{field_of, kept_bag, kept_shape, nodes_of};
ghost use Rattle.bag_scan.specs.Headers.{IsIndex, IsFieldHeader, IsFieldFound, HasNoField};

use crate::parts::atom;
use atom_kinds::{Kind, header_level, kind_of};
use atom_list::AtomList;
use context_model::LEVELS_MAX;
use field_table::{Slot, Slots};

/// The number of an indexed header of this level.
fn index_of(atom: &[u8], level: usize) -> Option<u64>
    ensures { MatchOption result ((number : ℕ) → IsIndex level atom.now number → ⊥)
        (IsIndex level atom.now) }
{
    let Ok(kind) = kind_of(atom) else {
        return None;
    };
    match kind {
        Kind::Indexed { level: own, number } => {
            if usize::from(own) == level {
                Some(number)
            } else {
                None
            }
        }
        Kind::Marker => None,
        Kind::Datum => None,
        Kind::Keyed { .. } => None,
    }
}

/// The field of a bag whose header of this level an atom is, with its place among the fields before
/// it.
fn headed_field<'a>(fields: &'a Slots, level: usize, atom: &[u8]) -> Option<(usize, &'a Slot)>
    requires fields { AreFields (nodes_of fields.now) }
    requires room { level + levels (nodes_of fields.now) ≤ LEVELS_MAX }
    ensures field { MatchOption result
        ((at : ℕ) (field : Field) → IsFieldHeader (nodes_of fields.now) level atom.now at field → ⊥)
        (λ found. IsFieldHeader (nodes_of fields.now) level atom.now found.0
        (field_of found.1.now)) }
    ensures ready { IsReady (kept_bag fields.now) →
        IfSome result (λ found. (inner : KeptBag) → kept_shape found.1.now.shape ≡ Bag inner
        → IsReady inner) }
{
    let number = index_of(atom, level)?;
    fields.find_number(number)
}

/// The next field of a bag whose header of this level is in the list, from a place on: its place
/// among the fields, the field, and the place after the header; or, where there is none, the place
/// where what is below the bag ends.
pub fn next_field<'a>(
    fields: &'a Slots,
    list: &AtomList,
    level: usize,
    from: usize,
) -> Result<(usize, &'a Slot, usize), usize>
    requires fields { AreFields (nodes_of fields.now) }
    requires room { level + levels (nodes_of fields.now) ≤ LEVELS_MAX }
    requires from { from ≤ length list.now }
    ensures found { IfOk result (λ found.
        IsFieldFound (nodes_of fields.now) list.now level from found.0
        (field_of found.1.now) found.2) }
    ensures ready { IsReady (kept_bag fields.now) →
        IfOk result (λ found. (inner : KeptBag) → kept_shape found.1.now.shape ≡ Bag inner
        → IsReady inner) }
    ensures none { IfErr result (HasNoField (nodes_of fields.now) list.now level from) }
{
    for at in from..list.len() {
        let atom = atom(list, at);
        if let Some(own) = header_level(atom) {
            if own < level {
                return Err(at);
            }
            if let Some((place, field)) = headed_field(fields, level, atom) {
                return Ok((place, field, at + 1));
            }
        }
    }
    Err(list.len())
}
