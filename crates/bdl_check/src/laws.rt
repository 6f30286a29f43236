//! What holds of all definitions, whatever compiles them.

ghost use Rattle.std.specs.Prelude.{◌≡◌, ℕ, List};
ghost use Rattle.std.specs.Option.{is_none};
ghost use Rattle.bag_model.specs.Shapes.{Nodes};
ghost use Rattle.bag_model.specs.Tables.{IsTable};
ghost use Rattle.bdl_check.specs.Checks.{declared_faults};
ghost use Rattle.bdl_check.specs.Declarations.{all_placed};
ghost use Rattle.bdl_check.specs.Faults.{first};
ghost use Rattle.bdl_check.specs.Passes.{pass};
ghost use Rattle.bdl_check.specs.Compiler.{IsTableOf, IsFirstFaultOf};
ghost use Rattle.bdl_load.specs.declared.faults.Fault.{Fault};
ghost use Rattle.bdl_load.specs.declared.files.LoadedFile.{LoadedFile};
ghost use Rattle.bdl_load.specs.Loading.{Holding};

use bdl_load::laws;

/// The declarations of all files have no fault exactly where their names are distinct and each of
/// them passes.
pub fn faultless_declarations_pass()
    ensures { (files : List LoadedFile)
        → is_none (first (declared_faults files)) ≡ pass (all_placed files) }
{}

/// A definition has at most one table for the name of a bag.
pub fn tables_are_unique()
    ensures { (held : Holding) (root name : List ℕ) (table other : Nodes)
        → IsTableOf held root name table → IsTableOf held root name other → table ≡ other }
{
    laws::loading_is_unique();
}

/// A definition that has a table for the name of a bag has no fault for it.
pub fn tables_exclude_faults()
    ensures { (held : Holding) (root name : List ℕ) (table : Nodes) (fault : Fault)
        → IsTableOf held root name table → IsFirstFaultOf held root name fault → ⊥ }
{
    laws::loading_is_unique();
}

/// A definition has at most one first fault for the name of a bag.
pub fn faults_are_unique()
    ensures { (held : Holding) (root name : List ℕ) (fault other : Fault)
        → IsFirstFaultOf held root name fault → IsFirstFaultOf held root name other
        → fault ≡ other }
{
    laws::loading_is_unique();
}

/// What a definition has as its table for the name of a bag is a table.
pub fn definitions_give_tables()
    ensures { (held : Holding) (root name : List ℕ) (table : Nodes)
        → IsTableOf held root name table → IsTable table }
{}
