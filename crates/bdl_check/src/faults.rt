//! Faults with the name of their file.

ghost use Rattle.std.specs.Prelude.{◌≡◌};
ghost use Rattle.bdl_load.specs.Faults.{fault_in};

use bdl_load::{Fault, Finding};
use outside::Text;

/// The fault in the file of this name.
pub(crate) fn fault_in(file: Text, found: Finding) -> Fault
    ensures { result ≡ fault_in file found }
{
    Fault {
        file,
        line: found.at.line,
        column: found.at.column,
        code: found.code,
    }
}
