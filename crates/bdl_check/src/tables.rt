//! The table of the chosen bag.

ghost use Rattle.std.specs.Prelude.{◌≡◌, [], Some, IfOk, IfErr, IfSome};
ghost use Rattle.std.specs.Option.{option_map};
ghost use Rattle.bdl_check.specs.Checks.{placed_faults};
ghost use Rattle.bdl_check.specs.Declarations.{AreSpelled, number_named};
ghost use Rattle.bdl_check.specs.Faults.{RefusesFor};
ghost use Rattle.bdl_check.specs.Recursion.{links};
ghost use Rattle.bdl_check.specs.Tables.{bag_named, IsTableAmong, IsUntabled};
ghost use Rattle.topological_order.specs.Orders.{IsOrder};

use crate::declarations::Declarations;
use crate::faults::fault_in;
use crate::layouts::lay_out;
use crate::sizes::{excess, sizes_of};
use crate::struct_kinds::StructKinds;
use bag_model::LEVELS_MAX;
use bdl_load::{DefCode, FIRST_SPOT, Fault, Finding};
use bdl_parser::{BagFields, Decl, Spot};
use field_table::Table;
use outside::{OrMemory, Text};
use std::alloc::Global;

/// A bag: its number, the name of its file, where its name is, and its fields.
#[derive(Clone, Copy)]
struct ChosenBag<'a> {
    number: usize,
    file: &'a Text,
    at: Spot,
    fields: &'a BagFields,
}

/// The bag of this name.
fn find_bag<'a>(declarations: &Declarations<'a>, name: &str) -> Option<ChosenBag<'a>>
    ensures bag { option_map
        (λ bag. record { file = bag.file.now; spot = bag.at; list = bag.fields.now }) result
        ≡ bag_named declarations.now name.now }
    ensures number { IfSome result
        (λ bag. number_named declarations.now name.now ≡ Some bag.number) }
{
    let number = declarations.number(name)?;
    let declaration = declarations.get(number)?;
    match declaration.decl {
        Decl::Bag { at, fields, .. } => Some(ChosenBag {
            number,
            file: declaration.file,
            at: *at,
            fields,
        }),
        Decl::Struct { .. } => None,
    }
}

/// The table of the bag of this name among the declarations of a definition with this root. The
/// order is one in which each declaration is after those that it names.
pub(crate) fn table_of(
    alloc: Global,
    declarations: &Declarations,
    order: &[usize],
    root: &str,
    bag: &str,
) -> Result<Table, OrMemory<Fault>>
    requires sound { placed_faults declarations.now ≡ [] }
    requires spelled { AreSpelled declarations.now }
    requires order { IsOrder (links declarations.now) order.now }
    ensures table { IfOk result (IsTableAmong declarations.now bag.now) }
    ensures fault { IfErr result (RefusesFor (IsUntabled declarations.now root.now bag.now)) }
{
    let Some(chosen) = find_bag(declarations, bag) else {
        let found = Finding {
            at: FIRST_SPOT,
            code: DefCode::NoSuchBag,
        };
        return Err(OrMemory::Fault(fault_in(Text::of(alloc, root)?, found)));
    };
    let sizes = sizes_of(alloc, declarations, order)?;
    let size = sizes[chosen.number];
    if let Some(code) = excess(size) {
        let found = Finding {
            at: chosen.at,
            code,
        };
        return Err(OrMemory::Fault(fault_in(chosen.file.copy()?, found)));
    }
    let kinds = StructKinds::of(alloc, declarations)?;
    let fields = lay_out(alloc, &kinds, chosen.fields, LEVELS_MAX)?;
    Ok(Table::of(fields))
}
