//! The checks of all declarations, which look at each declaration alone and at the names of all.

ghost use Rattle.std.specs.Prelude.{◌≡◌, ◌++◌, [], None, Some, Ok, IfOk, IfErr, OnOk};
ghost use Rattle.bdl_check.specs.Checks.{name_faults, declaration_faults, declared_faults};
ghost use Rattle.bdl_check.specs.Declarations.{kind_named, placed_in, all_placed};
ghost use Rattle.bdl_check.specs.Faults.{first, RefusesFor};

use crate::declarations::{Declarations, decl_place};
use crate::faults::fault_in;
use crate::fields::decl_fault;
use bdl_load::{DefCode, Fault, Finding, LoadedFile};
use outside::{Memory, OrMemory};
use std::alloc::Global;

/// The first fault of what the declarations say.
fn declared_fault(alloc: Global, declarations: &Declarations) -> Result<Option<Fault>, Memory>
    ensures { IfOk result (λ fault.
        fault ≡ first (declaration_faults (kind_named declarations.now) declarations.now)) }
{
    for declaration in declarations.as_slice() {
        if let Some(found) = decl_fault(alloc, declarations, declaration.decl)? {
            return Ok(Some(fault_in(declaration.file.copy()?, found)));
        }
    }
    Ok(None)
}

/// Declares what a file declares, up to the first name that was declared before.
fn declare_file<'a>(
    declarations: &mut Declarations<'a>,
    file: &'a LoadedFile,
) -> Result<Option<Fault>, Memory>
    ensures found { IfOk result (λ fault.
        fault ≡ first (name_faults declarations.old (placed_in file.now))) }
    ensures declared { result ≡ Ok None
        → declarations.new ≡ declarations.old ++ placed_in file.now }
{
    for decl in file.module.decls.as_slice() {
        if !declarations.declare(&file.name, decl)? {
            let found = Finding {
                at: decl_place(decl),
                code: DefCode::DuplicateName,
            };
            return Ok(Some(fault_in(file.name.copy()?, found)));
        }
    }
    Ok(None)
}

/// Declares what all files declare, up to the first name that was declared before.
fn declare_files<'a>(
    declarations: &mut Declarations<'a>,
    files: &'a [LoadedFile],
) -> Result<Option<Fault>, Memory>
    ensures found { IfOk result (λ fault.
        fault ≡ first (name_faults declarations.old (all_placed files.now))) }
    ensures declared { result ≡ Ok None
        → declarations.new ≡ declarations.old ++ all_placed files.now }
{
    for file in files {
        if let Some(fault) = declare_file(declarations, file)? {
            return Ok(Some(fault));
        }
    }
    Ok(None)
}

/// The declarations of all files, or their first fault: first come the names that an earlier
/// declaration has, and then what each declaration says.
pub(crate) fn check_declarations(
    alloc: Global,
    files: &[LoadedFile],
) -> Result<Declarations<'_>, OrMemory<Fault>>
    ensures all { IfOk result (λ declarations. declarations ≡ all_placed files.now) }
    ensures none { OnOk result (declared_faults files.now ≡ []) }
    ensures fault { IfErr result (RefusesFor
        (λ fault. first (declared_faults files.now) ≡ Some fault)) }
{
    let mut declarations = Declarations::new(alloc);
    if let Some(fault) = declare_files(&mut declarations, files)? {
        return Err(OrMemory::Fault(fault));
    }
    if let Some(fault) = declared_fault(alloc, &declarations)? {
        return Err(OrMemory::Fault(fault));
    }
    Ok(declarations)
}
