//! Bags that contain themselves.

ghost use Rattle.std.specs.Prelude.{◌≡◌, ◌++◌, IfOk, IfErr, OnOk};
ghost use Rattle.std.specs.List.{filter_map};
ghost use Rattle.bdl_load.specs.Faults.{found, fault_in};
ghost use Rattle.bdl_load.specs.declared.faults.DefCode.TheVariants.{Recursive};
ghost use Rattle.bdl_check.specs.Declarations.{number_named, decl_place};
ghost use Rattle.bdl_check.specs.DeclarationViews.{placed_of};
ghost use Rattle.bdl_check.specs.Faults.{RefusesFor};
ghost use Rattle.bdl_check.specs.Recursion.{names_in, uses, links, IsRecursive};
ghost use Rattle.bdl_parser.specs.Views.{tree_of};
ghost use Rattle.topological_order.specs.Graphs.{edge_lists_of};
ghost use Rattle.topological_order.specs.Orders.{IsOrder};

use crate::declarations::{Declaration, Declarations, decl_place};
use crate::faults::fault_in;
use bdl_load::{DefCode, Fault, Finding};
use bdl_parser::{Decl, TypeForm, TypeNode};
use outside::{Memory, OrMemory};
use std::alloc::Global;
use topological_order::{Sorted, topological_order};

/// Adds the numbers of the declarations that a type names, from left to right.
fn add_links(
    declarations: &Declarations,
    node: &TypeNode,
    row: &mut Vec<usize>,
) -> Result<(), Memory>
    ensures { OnOk result (row.new.items ≡ row.old.items
        ++ filter_map (number_named declarations.now) (names_in (tree_of node.now))) }
{
    match &node.form {
        TypeForm::Name(name) => {
            if let Some(number) = declarations.number(name.as_str()) {
                row.push(number)?;
            }
            Ok(())
        }
        TypeForm::Set(element) | TypeForm::Greatest(element) => {
            add_links(declarations, element, row)
        }
        TypeForm::Map(key, value) => {
            add_links(declarations, key, row)?;
            add_links(declarations, value, row)
        }
        _ => Ok(()),
    }
}

/// The numbers of the declarations that a declaration names.
fn links_from(alloc: Global, declarations: &Declarations, decl: &Decl) -> Result<Vec<usize>, Memory>
    ensures { IfOk result (λ row.
        row.items ≡ filter_map (number_named declarations.now) (uses decl.now)) }
{
    let mut row = Vec::new(alloc);
    let Decl::Bag { fields, .. } = decl else {
        return Ok(row);
    };
    for field in fields.as_slice() {
        add_links(declarations, &field.kind, &mut row)?;
    }
    Ok(row)
}

/// The same for each declaration.
fn all_links(alloc: Global, declarations: &Declarations) -> Result<Vec<Vec<usize>>, Memory>
    ensures { IfOk result (λ rows. edge_lists_of rows.items ≡ links declarations.now) }
{
    let mut rows = Vec::new(alloc);
    for declaration in declarations.as_slice() {
        let row = links_from(alloc, declarations, declaration.decl)?;
        rows.push(row)?;
    }
    Ok(rows)
}

/// The fault of a declaration that contains itself.
fn recursion_fault(declaration: &Declaration) -> Result<Fault, Memory>
    ensures { IfOk result (λ fault. fault ≡ fault_in declaration.now.file.now
        (found (decl_place declaration.now.decl.now) Recursive)) }
{
    let found = Finding {
        at: decl_place(declaration.decl),
        code: DefCode::Recursive,
    };
    Ok(fault_in(declaration.file.copy()?, found))
}

/// The numbers of the declarations in an order in which each is after those that it names, or the
/// fault of the first bag that contains itself.
pub(crate) fn order_of(
    alloc: Global,
    declarations: &Declarations,
) -> Result<Vec<usize>, OrMemory<Fault>>
    ensures order { IfOk result (λ order. IsOrder (links declarations.now) order.items) }
    ensures fault { IfErr result (RefusesFor (IsRecursive declarations.now)) }
{
    let rows = all_links(alloc, declarations)?;
    match topological_order(alloc, &rows)? {
        Sorted::Order(order) => Ok(order),
        Sorted::Cycle(number) => {
            let first = declarations.get(number).unwrap();
            Err(OrMemory::Fault(recursion_fault(&first)?))
        }
    }
}
