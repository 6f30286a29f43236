//! Values of fields.

ghost use Rattle.std.specs.Prelude.{◌↔◌, IsTrue};
ghost use Rattle.bag_model.specs.Joins.{IsBottom, Proper};
ghost use Rattle.bag_value.specs.Vals.{plain};

use crate::lists::{Entries, Vals};
use counter_type::{Counts, Lattice};
use outside::Memory;
use scalar_types::{Scalar, ScalarKind};
use set_map_types::SetOf;

/// A set of scalars of one kind.
pub type ScalarSet = SetOf<ScalarKind>;

/// The value of a field, of the shape of the field.
#[cycle(val)]
#[derive(Debug, Drop)]
pub enum Val {
    /// Whether a taint is on.
    Taint(bool),
    /// A scalar of which the least value stays, or none.
    Scalar(Option<Scalar>),
    /// A scalar of which the greatest value stays, or none.
    Greatest(Option<Scalar>),
    /// The elements of a set.
    Set(ScalarSet),
    /// The count of each writer.
    Counter(Counts),
    /// A value for each key.
    Map(Entries),
    /// The values of a bag's fields, in the order of the fields.
    Bag(Vals),
}

impl Val {
    /// Tells that the value and all inside it are in order, as every value is. It does nothing.
    pub(crate) fn known(&self)
        ensures { Proper (plain self.now) }
    {
        match self {
            Val::Taint(_) => {}
            Val::Scalar(_) | Val::Greatest(_) => {}
            Val::Set(set) => {
                let _ = set.is_bottom();
            }
            Val::Counter(counts) => {
                let _ = counts.is_bottom();
            }
            Val::Map(entries) => entries.known(),
            Val::Bag(values) => values.known(),
        }
    }

    /// Whether the value says nothing.
    #[cycle(bottom)]
    pub(crate) fn says_nothing(&self) -> bool
        ensures { IsTrue result ↔ IsBottom (plain self.now) }
    {
        match self {
            Val::Taint(on) => !*on,
            Val::Scalar(scalar) => scalar.is_none(),
            Val::Greatest(scalar) => scalar.is_none(),
            Val::Set(set) => set.is_bottom(),
            Val::Counter(counts) => counts.is_bottom(),
            Val::Map(entries) => entries.is_empty(),
            Val::Bag(values) => values.say_nothing(),
        }
    }
}

/// Values are joined variant by variant: a taint by or, a scalar to the least or the greatest
/// value, a set to the union, a counter to the greater count of each writer, a map key by key and a
/// bag field by field.
///
/// Two are alike where they are of one variant, two sets of one kind, the values of two maps at a
/// common key and those of two bags field by field. Where memory runs out, a value stays unchanged.
/// Of a bag and of a map only the fields and the keys of which the other says something are copied.
impl Lattice for Val {
    ghost use Rattle.bag_model.specs.Joins.{Alike, IsBottom, Proper};
    ghost use Rattle.bag_value.specs.Vals.{plain, val_joined};
    ghost use Rattle.bag_value.specs.ValLaws.{val_laws};

    ghost proper = { λ v. Proper (plain v) };

    ghost alike = { λ v w. Alike (plain v) (plain w) };

    ghost joined = { val_joined };

    ghost bottom = { λ v. IsBottom (plain v) };

    ghost laws = { val_laws };

    fn join(&mut self, other: &Val) -> Result<(), Memory> {
        self.join_in_place(other)?;
        Ok(())
    }

    fn is_bottom(&self) -> bool {
        self.known();
        self.says_nothing()
    }

    fn copy(&self) -> Result<Val, Memory> {
        self.copied()
    }
}
