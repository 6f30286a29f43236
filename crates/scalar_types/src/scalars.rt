//! Values of scalars, and lists of them.

ghost use Rattle.std.specs.Prelude.{◌≡◌, List, [], ◌∷◌, ◌++◌, length, map, All, IfOk, IfSome, OnOk, OnErr, IsTrue, ◌↔◌, slice_get};
ghost use Rattle.std.specs.Option.{option_map};
ghost use Rattle.std.specs.Cmp.Lexicographic.{slice_cmp};
ghost use Rattle.bag_model.specs.Scalars.{plain_rank, plain_cmp, scalar_cmp};
ghost use Rattle.scalar_types.specs.Scalars.{IsPlain, plain_of, value_of};

use outside::{Memory, Octets, Text};
use std::alloc::Global;
use std::cmp::Ordering;
use std::marker::Model;

/// The value of a scalar: of a word of the definition language, or of a struct of words.
#[cycle(scalar)]
#[derive(Debug, Drop)]
pub enum Scalar {
    /// The value of a `bool`.
    Bool(bool),
    /// The value of a number's word that has a sign.
    Signed(i64),
    /// The value of a number's word without a sign.
    Unsigned(u64),
    /// The value of a `string`.
    Str(Text),
    /// The value of a `bytes`.
    Bytes(Octets),
    /// The values of a struct's fields.
    Packed(ScalarList),
}

/// A list of values, none of which is a struct's. Contracts see it as the list of the plain values.
#[cycle(scalar)]
#[derive(Debug, Drop)]
pub struct ScalarList {
    scalars: Vec<Scalar>,
}

impl Model for ScalarList {
    ghost use Rattle.std.specs.Prelude.{List, length};
    ghost use Rattle.bag_model.specs.Scalars.{Plain};

    ghost Value = { List Plain };

    ghost use Rattle.std.specs.Prelude.{map, All};
    ghost use Rattle.scalar_types.specs.Scalars.{IsPlain, plain_of};

    ghost view = { λ list. map plain_of list.scalars.items };

    ghost invariant = { λ list. All IsPlain list.scalars.items };

    ghost size = { length };

    ghost use Rattle.scalar_types.specs.ScalarDescent.{scalars_fall};
    ghost use Rattle.std.proofs.Common.{arith};

    ghost size_decreases = { λ list plain. omega (arith, scalars_fall list.scalars.items plain) };
}

impl ScalarList {
    /// No values.
    pub fn new(alloc: Global) -> ScalarList
        ensures { result ≡ [] }
    {
        ScalarList {
            scalars: Vec::new(alloc),
        }
    }

    /// How many values there are.
    pub fn len(&self) -> usize
        ensures { result ≡ length self.now }
    {
        self.scalars.len()
    }

    /// Whether there is no value.
    pub fn is_empty(&self) -> bool
        ensures { IsTrue result ↔ (self.now ≡ []) }
    {
        self.scalars.is_empty()
    }

    /// The value at this place, from 0 on; `None` exactly where there is none.
    pub fn get(&self, at: usize) -> Option<&Scalar>
        ensures value { option_map (λ scalar. plain_of scalar.now) result ≡ slice_get self.now at }
        ensures plain { IfSome result (λ scalar. IsPlain scalar.now) }
    {
        self.as_slice().get(at)
    }

    /// The values in order.
    pub fn as_slice(&self) -> &[Scalar]
        ensures values { map plain_of result.now ≡ self.now }
        ensures plain { All IsPlain result.now }
    {
        self.scalars.as_slice()
    }

    /// Adds a value that is no struct's at the end. Where memory runs out, the list stays as it
    /// was.
    pub fn push(&mut self, scalar: Scalar) -> Result<(), Memory>
        requires { IsPlain scalar }
        ensures ok { OnOk result (self.new ≡ self.old ++ plain_of scalar ∷ []) }
        ensures err { OnErr result (self.new ≡ self.old) }
    {
        self.scalars.push(scalar)?;
        Ok(())
    }

    /// The same list again.
    pub fn copy(&self) -> Result<ScalarList, Memory>
        ensures { IfOk result (λ copied. copied ≡ self.now) }
    {
        let alloc = *self.scalars.allocator();
        let mut copied = Vec::with_capacity(alloc, self.scalars.len())?;
        for scalar in &self.scalars {
            copied.push(scalar.copy_plain()?)?;
        }
        Ok(ScalarList { scalars: copied })
    }
}

impl Scalar {
    /// The same value again.
    pub fn copy(&self) -> Result<Scalar, Memory>
        ensures { IfOk result (λ copied. copied ≡ self.now) }
    {
        match self {
            Scalar::Packed(scalars) => Ok(Scalar::Packed(scalars.copy()?)),
            plain => plain.copy_plain(),
        }
    }

    /// The same value again, where it is no struct's.
    fn copy_plain(&self) -> Result<Scalar, Memory>
        requires { IsPlain self.now }
        ensures { IfOk result (λ copied. copied ≡ self.now) }
    {
        match self {
            Scalar::Bool(truth) => Ok(Scalar::Bool(*truth)),
            Scalar::Signed(number) => Ok(Scalar::Signed(*number)),
            Scalar::Unsigned(number) => Ok(Scalar::Unsigned(*number)),
            Scalar::Str(text) => Ok(Scalar::Str(text.copy()?)),
            Scalar::Bytes(bytes) => Ok(Scalar::Bytes(bytes.copy()?)),
            Scalar::Packed(_) => unreachable!(),
        }
    }

    /// The order of any two values: values of one kind have the order of the kind, and values of
    /// different kinds come one after another in the order of the variants. It takes no memory.
    pub fn order(&self, other: &Scalar) -> Ordering
        ensures { result ≡ scalar_cmp (value_of self.now) (value_of other.now) }
    {
        match (self, other) {
            (Scalar::Packed(these), Scalar::Packed(those)) => {
                order_of_lists(these.as_slice(), those.as_slice())
            }
            (Scalar::Packed(_), _) => Ordering::Greater,
            (_, Scalar::Packed(_)) => Ordering::Less,
            (this, that) => this.order_plain(that),
        }
    }

    /// The order of two values that are no structs'.
    fn order_plain(&self, other: &Scalar) -> Ordering
        requires this { IsPlain self.now }
        requires that { IsPlain other.now }
        ensures { result ≡ plain_cmp (plain_of self.now) (plain_of other.now) }
    {
        match (self, other) {
            (Scalar::Bool(this), Scalar::Bool(that)) => this.cmp(that),
            (Scalar::Signed(this), Scalar::Signed(that)) => this.cmp(that),
            (Scalar::Unsigned(this), Scalar::Unsigned(that)) => this.cmp(that),
            (Scalar::Str(this), Scalar::Str(that)) => {
                this.as_str().as_bytes().cmp(that.as_str().as_bytes())
            }
            (Scalar::Bytes(this), Scalar::Bytes(that)) => this.as_slice().cmp(that.as_slice()),
            _ => self.rank().cmp(&other.rank()),
        }
    }

    /// The place that the variant of a value that is no struct's has among the variants.
    fn rank(&self) -> u8
        requires { IsPlain self.now }
        ensures { result ≡ plain_rank (plain_of self.now) }
    {
        match self {
            Scalar::Bool(_) => 0,
            Scalar::Signed(_) => 1,
            Scalar::Unsigned(_) => 2,
            Scalar::Str(_) => 3,
            Scalar::Bytes(_) => 4,
            Scalar::Packed(_) => unreachable!(),
        }
    }
}

/// The order of two lists of values that are no structs': that of the first values that differ, and
/// a list before each longer one that begins with it.
fn order_of_lists(these: &[Scalar], those: &[Scalar]) -> Ordering
    requires this { All IsPlain these.now }
    requires that { All IsPlain those.now }
    ensures { result ≡ slice_cmp plain_cmp (map plain_of these.now) (map plain_of those.now) }
{
    let common = these.len().min(those.len());
    for at in 0..common {
        let order = these[at].order_plain(&those[at]);
        if order != Ordering::Equal {
            return order;
        }
    }
    these.len().cmp(&those.len())
}
