//! Files by name.

ghost use Rattle.std.specs.Prelude.{◌≡◌, ℕ, ◌-◌, ◌^◌, ◌≤◌, [], ◌∷◌, length, IfOk, IfSome, OnOk, OnErr, Option, Some, None};
ghost use Rattle.std.specs.Option.{option_map};
ghost use Rattle.outside.specs.Causes.{HasCauseAt};
ghost use Rattle.outside.specs.Transfers.{Files, Fetches, Asked, Asks, with_file};
ghost use Rattle.outside.specs.Libraries.{held_in};
ghost use Rattle.outside.specs.Bounds.{zero_in_range};
ghost use Rattle.outside.specs.Faults.{faults_in, faults_in_range};
ghost use Rattle.outside.specs.declared.TheConstants.{FETCH_MAX};

use crate::FETCH_MAX;
use crate::answers::{LibraryFault, Memory};
use crate::failures::Failures;
use crate::texts::{Text, Words};
use std::alloc::Global;
use std::collections::BTreeMap;

/// A library of files.
///
/// `files` is what it holds by name, where it tells. `faults` counts faults: it rises by one or
/// more with each fetch that answers [`LibraryFault::Failed`], stays with each that succeeds, never
/// falls, and stays at `u64::MAX` once it has reached it. `asked` has the names that it was asked
/// for, where it keeps them; by default it keeps none.
pub trait Library {
    ghost files: { Self → Files };

    ghost faults: { Self → ℕ };

    ghost asked: { Self → Asked } = { λ _. None };

    /// The first `FETCH_MAX` bytes of the named file, or all of a shorter one; `None` where there
    /// is no such file.
    fn fetch(&mut self, alloc: Global, name: &str) -> Result<Option<Vec<u8>>, LibraryFault>
        ensures held { IfOk result
            (λ found. Fetches (files self.old) name.now (option_map (λ file. file.items) found)) }
        ensures bound { IfOk result
            (λ found. IfSome found (λ file. length file.items ≤ FETCH_MAX)) }
        ensures same { files self.new ≡ files self.old }
        ensures asked { Asks (name.now ∷ []) (asked self.old) (asked self.new) }
        ensures cause { HasCauseAt LibraryFault.Failed (faults self.old) (faults self.new) result };

    ghost counted: { (library : Self) → faults library ≤ 2 ^ 64 - 1 };
}

/// A library in memory that never fails.
#[derive(Debug, Drop)]
pub struct SureLibrary {
    alloc: Global,
    contents: BTreeMap<String, Vec<u8>>,
}

impl SureLibrary {
    /// The library that holds no file.
    pub fn new(alloc: Global) -> SureLibrary
        ensures files { ⟦<SureLibrary as Library>⟧.files result ≡ Some (λ _. None) }
        ensures faults { ⟦<SureLibrary as Library>⟧.faults result ≡ 0 }
    {
        SureLibrary {
            alloc,
            contents: BTreeMap::new(alloc),
        }
    }

    /// Puts the name with this content, in place of any earlier content of that name. Where memory
    /// runs out, the library stays as it was.
    pub fn add(&mut self, name: &str, content: &[u8]) -> Result<(), Memory>
        ensures ok { OnOk result (⟦<SureLibrary as Library>⟧.files self.new
            ≡ with_file name.now content.now (⟦<SureLibrary as Library>⟧.files self.old)) }
        ensures err { OnErr result (⟦<SureLibrary as Library>⟧.files self.new
            ≡ ⟦<SureLibrary as Library>⟧.files self.old) }
    {
        let name = String::from_str(self.alloc, name)?;
        let content = Vec::from_slice(self.alloc, content)?;
        self.contents.insert(name, content)?;
        Ok(())
    }
}

impl Library for SureLibrary {
    ghost files = { λ library. held_in library.contents };

    ghost faults = { λ _. 0 };

    ghost counted = { λ _. zero_in_range };

    fn fetch(&mut self, alloc: Global, name: &str) -> Result<Option<Vec<u8>>, LibraryFault> {
        let Some(content) = self.contents.get(name) else {
            return Ok(None);
        };
        let len = FETCH_MAX.min(content.len());
        let bytes = Vec::from_slice(alloc, &content[..len])?;
        Ok(Some(bytes))
    }
}

/// A library in memory, some of whose fetches fail. It keeps the names that it was asked for.
#[derive(Debug, Drop)]
pub struct MemoryLibrary {
    inner: SureLibrary,
    failures: Failures,
    asked: Option<Words>,
}

impl MemoryLibrary {
    /// The library that holds no file. `failing` has the numbers, from 0, of the fetches that fail.
    pub fn new(alloc: Global, failing: Vec<u64>) -> MemoryLibrary
        ensures files { ⟦<MemoryLibrary as Library>⟧.files result ≡ Some (λ _. None) }
        ensures faults { ⟦<MemoryLibrary as Library>⟧.faults result ≡ 0 }
        ensures asked { ⟦<MemoryLibrary as Library>⟧.asked result ≡ Some [] }
    {
        MemoryLibrary {
            inner: SureLibrary::new(alloc),
            failures: Failures::new(failing),
            asked: Some(Words::new(alloc)),
        }
    }

    /// Puts the name with this content, in place of any earlier content of that name. Where memory
    /// runs out, the library stays as it was.
    pub fn add(&mut self, name: &str, content: &[u8]) -> Result<(), Memory>
        ensures ok { OnOk result (⟦<MemoryLibrary as Library>⟧.files self.new
            ≡ with_file name.now content.now (⟦<MemoryLibrary as Library>⟧.files self.old)) }
        ensures err { OnErr result (⟦<MemoryLibrary as Library>⟧.files self.new
            ≡ ⟦<MemoryLibrary as Library>⟧.files self.old) }
        ensures faults { ⟦<MemoryLibrary as Library>⟧.faults self.new
            ≡ ⟦<MemoryLibrary as Library>⟧.faults self.old }
        ensures asked { ⟦<MemoryLibrary as Library>⟧.asked self.new
            ≡ ⟦<MemoryLibrary as Library>⟧.asked self.old }
    {
        self.inner.add(name, content)
    }

    /// The names that it was asked for, in order. `None` once there was no memory for one of them.
    pub fn asked(&self) -> Option<&Words>
        ensures { option_map (λ names. names.now) result
            ≡ ⟦<MemoryLibrary as Library>⟧.asked self.now }
    {
        self.asked.as_ref()
    }
}

/// The names with this one after them, or `None` where there is no memory for it.
fn with_name(alloc: Global, names: Option<Words>, name: &str) -> Option<Words>
    ensures { Asks (name.now ∷ []) names result }
{
    let mut names = names?;
    let name = Text::of(alloc, name).ok()?;
    names.push(name).ok()?;
    Some(names)
}

impl Library for MemoryLibrary {
    ghost files = { λ library. ⟦<SureLibrary as Library>⟧.files library.inner };

    ghost faults = { λ library. faults_in library.failures.faults };

    ghost asked = { λ library. library.asked };

    ghost counted = { λ library. faults_in_range library.failures.faults };

    fn fetch(&mut self, alloc: Global, name: &str) -> Result<Option<Vec<u8>>, LibraryFault> {
        self.asked = with_name(alloc, self.asked.take(), name);
        if self.failures.next_fails() {
            return Err(LibraryFault::Failed);
        }
        self.inner.fetch(alloc, name)
    }
}
