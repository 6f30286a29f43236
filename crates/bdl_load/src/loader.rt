//! The way from the name of a file to all files that it imports.

ghost use Rattle.std.specs.Prelude.{◌≡◌, [], ◌∷◌, ◌++◌, ◌<◌, ◌≤◌, length, All, IfOk, IfErr, OnOk, IsErrOf};
ghost use Rattle.outside.specs.Causes.{Rose};
ghost use Rattle.outside.specs.Transfers.{Asks};
ghost use Rattle.bdl_load.specs.Loader.{IsFound, IsBroken, IsSpelledFile, IsSoundLoader, TreatsLibrary, IsChosen, Halts, StopsImport, TakesAll, StopsInAll, TakesOne, StopsInOne, names_taking, taking_next, imports_from};
ghost use Rattle.bdl_load.specs.Faults.{Blames};
ghost use Rattle.bdl_load.specs.Loading.{LoadsAll, StopsAt, AsksInOrder, is_among, file_names};
ghost use Rattle.bdl_parser.specs.Decls.{AreSpelledDecls};

use crate::faults::{DefCode, DefFault, FIRST_SPOT, blame};
use crate::files::LoadedFile;
use crate::source::read_source;
use bdl_parser::Import;
use outside::{Library, Memory, Text};
use std::alloc::Global;

/// The most files of a definition.
pub const FILES_MAX: usize = 64;

/// The file of that name, fetched and read, or `None` where the library holds no such file.
fn fetch_file<L: Library>(
    alloc: Global,
    library: &mut L,
    name: &str,
) -> Result<Option<LoadedFile>, DefFault>
    ensures found { IfOk result (IsFound (L.files library.old) name.now) }
    ensures fault { IfErr result (Blames (IsBroken (L.files library.old) name.now)) }
    ensures asked { Asks (name.now ∷ []) (L.asked library.old) (L.asked library.new) }
    ensures library { TreatsLibrary L.files L.faults library.old library.new result }
{
    let Some(source) = library.fetch(alloc, name)? else {
        return Ok(None);
    };
    let module = read_source(alloc, name, &source)?;
    let name = Text::of(alloc, name)?;
    Ok(Some(LoadedFile { name, module }))
}

/// The files that were fetched so far, and the numbers of those whose imports are being taken.
#[derive(Drop)]
struct Loader {
    alloc: Global,
    files: Vec<LoadedFile>,
    taking: Vec<usize>,
}

impl Loader {
    /// Whether the imports of the file of that name are being taken.
    fn is_taking(&self, name: &str) -> bool
        requires { All (λ number. number < length self.now.files.items) self.now.taking.items }
        ensures { result ≡ is_among name.now (names_taking self.now) }
    {
        for number in &self.taking {
            if name == self.files[*number].name.as_str() {
                return true;
            }
        }
        false
    }

    /// Whether a file of that name was loaded.
    fn is_loaded(&self, name: &str) -> bool
        ensures { result ≡ is_among name.now (file_names self.now.files.items) }
    {
        for file in &self.files {
            if name == file.name.as_str() {
                return true;
            }
        }
        false
    }

    /// Whether the import's file is to be fetched, since it wasn't loaded before.
    fn is_to_fetch(&self, from: &str, import: &Import) -> Result<bool, DefFault>
        requires { IsSoundLoader self.now }
        ensures chosen { IfOk result
            (IsChosen (names_taking self.now) self.now.files.items import.now.file) }
        ensures fault { IfErr result (Halts (StopsImport self.now from.now import.now)) }
    {
        let name = import.file.as_str();
        if self.is_taking(name) {
            return Err(blame(self.alloc, from, import.at, DefCode::ImportCycle));
        }
        if self.is_loaded(name) {
            return Ok(false);
        }
        if self.files.len() >= FILES_MAX {
            return Err(blame(self.alloc, from, import.at, DefCode::TooManyFiles));
        }
        Ok(true)
    }

    /// Adds a file whose imports are to be taken, and answers its number.
    fn begin(&mut self, file: LoadedFile) -> Result<usize, Memory>
        ensures number { IfOk result (λ number. number ≡ length self.old.files.items) }
        ensures files { OnOk result (self.new.files.items ≡ self.old.files.items ++ file ∷ []) }
        ensures taking { OnOk result (self.new.taking.items ≡ taking_next self.old) }
    {
        let number = self.files.len();
        self.taking.push(number)?;
        self.files.push(file)?;
        Ok(number)
    }

    /// Takes the imports of the file of that number, one after another.
    #[cycle(load)]
    fn take_imports<L: Library>(&mut self, library: &mut L, from: usize) -> Result<(), DefFault>
        requires sound { IsSoundLoader self.old }
        requires within { from < length self.old.files.items }
        ensures sound { OnOk result (IsSoundLoader self.new) }
        ensures taking { OnOk result (self.new.taking.items ≡ self.old.taking.items) }
        ensures loaded { OnOk result
            (TakesAll L.files L.asked library.old library.new self.old from self.new) }
        ensures fault { IfErr result
            (StopsInAll L.files L.asked library.old library.new self.old from) }
        ensures library { TreatsLibrary L.files L.faults library.old library.new result }
    {
        let count = self.files[from].module.imports.len();
        for number in 0..count {
            self.take_import(library, from, number)?;
        }
        Ok(())
    }

    /// Takes one import of the file of that number.
    #[cycle(load)]
    fn take_import<L: Library>(
        &mut self,
        library: &mut L,
        from: usize,
        number: usize,
    ) -> Result<(), DefFault>
        requires sound { IsSoundLoader self.old }
        requires within { from < length self.old.files.items }
        requires counted { number < length (imports_from self.old from) }
        ensures sound { OnOk result (IsSoundLoader self.new) }
        ensures taking { OnOk result (self.new.taking.items ≡ self.old.taking.items) }
        ensures loaded { OnOk result
            (TakesOne L.files L.asked library.old library.new self.old from number self.new) }
        ensures fault { IfErr result
            (StopsInOne L.files L.asked library.old library.new self.old from number) }
        ensures library { TreatsLibrary L.files L.faults library.old library.new result }
    {
        let file = &self.files[from];
        let import = &file.module.imports.as_slice()[number];
        if !self.is_to_fetch(file.name.as_str(), import)? {
            return Ok(());
        }
        match fetch_file(self.alloc, library, import.file.as_str())? {
            Some(file) => {
                let from = self.begin(file)?;
                self.take_imports(library, from)?;
                self.taking.pop();
                Ok(())
            }
            None => {
                let from = file.name.as_str();
                Err(blame(self.alloc, from, import.at, DefCode::ImportMissing))
            }
        }
    }
}

/// Fetches the root file and all files that it imports, the imports of each file depth first and
/// each file once, and reads each as soon as it is fetched. They are in the order of fetching, and
/// the library is asked for nothing else. The first fault is the answer where there is one,
/// `Failed` where a fetch failed, and `Memory` where there is none for the files or the fault.
pub fn load<L: Library>(
    alloc: Global,
    library: &mut L,
    root: &str,
) -> Result<Vec<LoadedFile>, DefFault>
    ensures loaded { IfOk result (λ files.
        LoadsAll L.files L.asked library.old library.new root.now files.items) }
    ensures spelled { IfOk result (λ files.
        All (λ file. AreSpelledDecls file.«module».decls) files.items) }
    ensures fault { IfErr result
        (Blames (StopsAt L.files L.asked library.old library.new root.now)) }
    ensures asked { AsksInOrder L.files L.asked library.old library.new root.now }
    ensures cause { IsErrOf result DefFault.Failed
        → Rose (L.faults library.old) (L.faults library.new) }
    ensures steady { OnOk result (L.faults library.new ≡ L.faults library.old) }
    ensures blamed { IfErr result (Blames (λ _. L.faults library.new ≡ L.faults library.old)) }
    ensures later { L.faults library.old ≤ L.faults library.new }
    ensures same { L.files library.new ≡ L.files library.old }
{
    let Some(file) = fetch_file(alloc, library, root)? else {
        return Err(blame(alloc, root, FIRST_SPOT, DefCode::NoFile));
    };
    let mut loader = Loader {
        alloc,
        files: Vec::new(alloc),
        taking: Vec::new(alloc),
    };
    let from = loader.begin(file)?;
    loader.take_imports(library, from)?;
    Ok(loader.files)
}
