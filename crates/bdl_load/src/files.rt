//! The files of a definition.

use bdl_parser::Module;
use outside::Text;

/// A file that was fetched, with what it says.
#[derive(Drop)]
pub struct LoadedFile {
    pub name: Text,
    pub module: Module,
}
