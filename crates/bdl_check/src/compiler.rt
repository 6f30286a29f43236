//! The whole way from the name of a root to the table of a bag.

ghost use Rattle.std.specs.Prelude.{◌≡◌, ◌≤◌, All, IfOk, IfErr, IfSome, OnOk, IsErrOf};
ghost use Rattle.outside.specs.Causes.{Rose};
ghost use Rattle.bdl_load.specs.Faults.{Blames};
ghost use Rattle.bdl_load.specs.Loading.{OfLibrary, AsksFirst};
ghost use Rattle.bdl_parser.specs.Decls.{AreSpelledDecls};
ghost use Rattle.bdl_check.specs.Compiler.{IsTableIn, IsFaultIn, IsTableOf, IsFirstFaultOf, CameOf};
ghost use Rattle.bdl_check.specs.Faults.{RefusesFor};

use crate::checks::check_declarations;
use crate::recursion::order_of;
use crate::tables::table_of;
use bdl_load::{DefFault, Fault, LoadedFile, load};
use field_table::Table;
use outside::{Library, OrMemory};
use std::alloc::Global;
use topological_order::laws;

/// The table of the bag of this name in the files of a definition, the first of which is its root.
fn table_in(
    alloc: Global,
    files: &[LoadedFile],
    root: &str,
    bag: &str,
) -> Result<Table, OrMemory<Fault>>
    requires { All (λ file. AreSpelledDecls file.«module».decls) files.now }
    ensures table { IfOk result (IsTableIn files.now bag.now) }
    ensures fault { IfErr result (RefusesFor (IsFaultIn files.now root.now bag.now)) }
{
    let declarations = check_declarations(alloc, files)?;
    let order = order_of(alloc, &declarations)?;
    laws::orders_exclude_cycles();
    table_of(alloc, &declarations, &order, root, bag)
}

/// The table of a bag of a definition, whose root is a file of the library. The root is fetched
/// first, and then each file that is imported, once, and no other; the first fault of all is the
/// answer where there is one, `Failed` where a fetch failed, and `Memory` where there is none for
/// the files, the table or the fault.
///
/// The first two clauses say it of a library that tells what it holds. The next two say it of any
/// library, with what it was asked for.
pub fn compile<L: Library>(
    alloc: Global,
    library: &mut L,
    file: &str,
    bag: &str,
) -> Result<Table, DefFault>
    ensures told_table { IfSome (L.files library.old)
        (λ held. IfOk result (IsTableOf held file.now bag.now)) }
    ensures told_fault { IfSome (L.files library.old)
        (λ held. IfErr result (Blames (IsFirstFaultOf held file.now bag.now))) }
    ensures table { IfOk result (λ table.
        CameOf (L.files library.old) (L.asked library.old) (L.asked library.new) file.now
        (λ held. IsTableOf held file.now bag.now table)) }
    ensures fault { IfErr result (Blames (λ fault.
        CameOf (L.files library.old) (L.asked library.old) (L.asked library.new) file.now
        (λ held. IsFirstFaultOf held file.now bag.now fault))) }
    ensures asked { OfLibrary (L.files library.old) (L.asked library.old) (L.asked library.new)
        (λ held names. AsksFirst held file.now names) }
    ensures cause { IsErrOf result DefFault.Failed
        → Rose (L.faults library.old) (L.faults library.new) }
    ensures steady { OnOk result (L.faults library.new ≡ L.faults library.old) }
    ensures blamed { IfErr result (Blames (λ _. L.faults library.new ≡ L.faults library.old)) }
    ensures later { L.faults library.old ≤ L.faults library.new }
    ensures same { L.files library.new ≡ L.files library.old }
{
    let files = load(alloc, library, file)?;
    Ok(table_in(alloc, &files, file, bag)?)
}
