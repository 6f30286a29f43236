//! The names of a bag's fields.

ghost use Rattle.std.specs.Prelude.{◌≡◌, [], ◌∷◌, OnOk};
ghost use Rattle.std.specs.List.{list_any};
ghost use Rattle.std.specs.Str.{bytes_eq};
ghost use Rattle.table_text.specs.Names.{HaveNames};

use crate::words::is;
use outside::Memory;
use std::alloc::Global;
use std::collections::BTreeSet;
use std::marker::Model;

/// How many names are looked through one by one.
const FEW: usize = 8;

/// The names of a bag's fields. No choice of names makes a look-up slow, as it may where names are
/// hashed. Contracts see them as a list.
#[derive(Drop)]
pub(crate) struct FieldNames<'a> {
    /// The first names. Most bags have no others; so few are looked through faster than a set, and
    /// take no memory.
    first: [&'a str; FEW],
    /// How many of the first there are.
    count: usize,
    /// The names after those.
    others: BTreeSet<&'a str>,
}

/// Whether the name is one of these.
fn is_among(names: &[&str], name: &str) -> bool
    ensures { result ≡ list_any (λ other. bytes_eq name.now other.now) names.now }
{
    names.iter().any(|other| is(name.as_bytes(), *other))
}

impl<'a> Model for FieldNames<'a> {
    ghost use Rattle.std.specs.Prelude.{ℕ, List, map, take, ◌++◌, ◌≤◌};

    ghost Value = { List (List ℕ) };

    ghost use Rattle.table_text.specs.declared.names.TheConstants.{FEW};

    ghost view = { λ list. map (λ name. name.now) (take list.count list.first ++ list.others.keys) };

    ghost invariant = { λ list. list.count ≤ FEW };
}

impl<'a> FieldNames<'a> {
    /// No names.
    pub(crate) fn new(alloc: Global) -> FieldNames<'a>
        ensures { result ≡ [] }
    {
        FieldNames {
            first: [""; FEW],
            count: 0,
            others: BTreeSet::new(alloc),
        }
    }

    /// Whether a field has the name.
    pub(crate) fn contains(&self, name: &str) -> bool
        ensures { result ≡ list_any (bytes_eq name.now) self.now }
    {
        is_among(&self.first[..self.count], name) || self.others.contains(name)
    }

    /// Adds a name.
    pub(crate) fn add(&mut self, name: &'a str) -> Result<(), Memory>
        ensures { OnOk result (HaveNames self.new (name.now ∷ self.old)) }
    {
        if self.count < FEW {
            self.first[self.count] = name;
            self.count += 1;
        } else {
            self.others.insert(name)?;
        }
        Ok(())
    }
}
