//! Copies of values.

ghost use Rattle.std.specs.Prelude.{◌≡◌, IfOk};

use crate::lists::{Entries, Entry, Vals};
use crate::vals::Val;
use counter_type::Lattice;
use outside::Memory;

impl Val {
    /// The same value again.
    #[cycle(copy)]
    pub(crate) fn copied(&self) -> Result<Val, Memory>
        ensures { IfOk result (λ copied. copied ≡ self.now) }
    {
        match self {
            Val::Taint(on) => Ok(Val::Taint(*on)),
            Val::Scalar(None) => Ok(Val::Scalar(None)),
            Val::Scalar(Some(scalar)) => Ok(Val::Scalar(Some(scalar.copy()?))),
            Val::Greatest(None) => Ok(Val::Greatest(None)),
            Val::Greatest(Some(scalar)) => Ok(Val::Greatest(Some(scalar.copy()?))),
            Val::Set(set) => Ok(Val::Set(set.copy()?)),
            Val::Counter(counts) => Ok(Val::Counter(counts.copy()?)),
            Val::Map(entries) => Ok(Val::Map(entries.copy()?)),
            Val::Bag(values) => Ok(Val::Bag(values.copy()?)),
        }
    }
}

impl Entry {
    /// The same key and the same value again.
    #[cycle(copy)]
    pub fn copy(&self) -> Result<Entry, Memory>
        ensures { IfOk result (λ copied. copied ≡ self.now) }
    {
        let key = self.key.copy()?;
        let value = self.value.copied()?;
        Ok(Entry { key, value })
    }
}

impl Entries {
    /// The same keys and values again.
    #[cycle(copy)]
    pub fn copy(&self) -> Result<Entries, Memory>
        ensures { IfOk result (λ copied. copied ≡ self.now) }
    {
        let mut items = Vec::with_capacity(*self.items.allocator(), self.items.len())?;
        for entry in &self.items {
            items.push(entry.copy()?)?;
        }
        Ok(Entries { items })
    }
}

impl Vals {
    /// The same values again.
    #[cycle(copy)]
    pub fn copy(&self) -> Result<Vals, Memory>
        ensures { IfOk result (λ copied. copied ≡ self.now) }
    {
        let mut items = Vec::with_capacity(*self.items.allocator(), self.items.len())?;
        for value in &self.items {
            items.push(value.copied()?)?;
        }
        Ok(Vals { items })
    }
}
