//! Whether some values say together what another says. It is found thing by thing, with no join of
//! them.

ghost use Rattle.std.specs.Prelude.{◌≡◌, ◌⊎◌, ◌↔◌, ◌∷◌, List, Some, IsTrue, IfOk};
ghost use Rattle.std.specs.Option.{option_map};
ghost use Rattle.context_model.specs.Orders.{IsIn};
ghost use Rattle.bag_model.specs.Joins.{IsBottom, IsValueBelow, Proper};
ghost use Rattle.bag_model.specs.Scalars.{ScalarKind, ScalarValue, IsScalarOf};
ghost use Rattle.bag_model.specs.Values as model;
ghost use Rattle.scalar_types.specs.Scalars.{value_of};
ghost use Rattle.bag_value.specs.Vals.{plain};
ghost use Rattle.write_proof.specs.Together.{AreOfOneShape, IsAtKey, IsOfField, IsSaid, IsSaidBy, Says, values_of};
ghost use Rattle.write_proof.specs.Together as says;

use crate::belows::is_below;
use bag_value::{Entries, ScalarSet, Val, Vals};
use counter_type::{Counts, Lattice};
use outside::Memory;
use scalar_types::Scalar;
use std::alloc::Global;

/// Whether the value is a set that has the element.
fn has_element(value: &Val, element: &Scalar) -> bool
    requires { (kind : ScalarKind) (vs : List ScalarValue)
        → plain value.now ≡ model.Value.Set kind vs → IsScalarOf kind (value_of element.now) }
    ensures { IsTrue result ↔ Says (plain value.now) (says.HasElement (value_of element.now)) }
{
    match value {
        Val::Set(set) => set.contains(element),
        _ => false,
    }
}

/// Whether some set has the element.
fn is_element_said(element: &Scalar, others: &[&Val]) -> bool
    requires { (kind : ScalarKind) (vs : List ScalarValue)
        → IsIn (model.Value.Set kind vs) (values_of others.now)
        → IsScalarOf kind (value_of element.now) }
    ensures { IsTrue result
        ↔ IsSaid (says.HasElement (value_of element.now)) (values_of others.now) }
{
    for other in others {
        if has_element(*other, element) {
            return true;
        }
    }
    false
}

/// Whether the value is a counter that counts the writer at least to `count`.
fn counts_to(value: &Val, writer: &[u8], count: u64) -> bool
    requires { Proper (plain value.now) }
    ensures { IsTrue result ↔ Says (plain value.now) (says.CountsTo writer.now count) }
{
    match value {
        Val::Counter(counts) => match counts.get(writer) {
            Some(most) => count <= most,
            None => false,
        },
        _ => false,
    }
}

/// Whether some counter counts the writer at least to `count`.
fn is_count_said(writer: &[u8], count: u64, others: &[&Val]) -> bool
    requires { (v : model.Value) → IsIn v (values_of others.now) → Proper v }
    ensures { IsTrue result ↔ IsSaid (says.CountsTo writer.now count) (values_of others.now) }
{
    for other in others {
        if counts_to(*other, writer, count) {
            return true;
        }
    }
    false
}

/// Whether one of the others alone says what a value says.
fn is_below_one(value: &Val, others: &[&Val]) -> bool
    requires { AreOfOneShape (plain value.now ∷ values_of others.now) }
    ensures { IsTrue result
        ↔ ((v : model.Value) × IsIn v (values_of others.now) × IsValueBelow (plain value.now) v) }
{
    for other in others {
        if is_below(value, *other) {
            return true;
        }
    }
    false
}

/// Whether each element of a set is in some other.
fn are_elements_said(set: &ScalarSet, others: &[&Val]) -> bool
    requires { AreOfOneShape (plain (Val.Set set.now) ∷ values_of others.now) }
    ensures { IsTrue result ↔ IsSaidBy (plain (Val.Set set.now)) (values_of others.now) }
{
    for at in 0..set.len() {
        if !is_element_said(set.get(at).unwrap(), others) {
            return false;
        }
    }
    true
}

/// Whether of each writer's count some other counter has no less.
fn are_counts_said(counts: &Counts, others: &[&Val]) -> bool
    requires { AreOfOneShape (model.Value.Counter counts.now ∷ values_of others.now) }
    ensures { IsTrue result ↔ IsSaidBy (model.Value.Counter counts.now) (values_of others.now) }
{
    for at in 0..counts.len() {
        let (writer, count) = counts.nth(at).unwrap();
        if !is_count_said(writer, count, others) {
            return false;
        }
    }
    true
}

/// The value at a key of a map.
fn value_at<'a>(map: &'a Val, key: &Scalar) -> Option<&'a Val>
    requires { Proper (plain map.now) }
    ensures { (v : model.Value) → (option_map (λ found. plain found.now) result ≡ Some v)
        ↔ IsAtKey (value_of key.now) (plain map.now) v }
{
    match map {
        Val::Map(entries) => entries.find(key),
        _ => None,
    }
}

/// The values at a key, of the maps that have it.
fn values_at<'a>(alloc: Global, maps: &[&'a Val], key: &Scalar) -> Result<Vec<&'a Val>, Memory>
    requires { (v : model.Value) → IsIn v (values_of maps.now) → Proper v }
    ensures { IfOk result (λ found. (v : model.Value) → IsIn v (values_of found.items)
        ↔ ((map : model.Value) × IsIn map (values_of maps.now)
        × IsAtKey (value_of key.now) map v)) }
{
    let mut found = Vec::new(alloc);
    for map in maps {
        if let Some(value) = value_at(*map, key) {
            found.push(value)?;
        }
    }
    Ok(found)
}

/// The value of the field at a place of a bag.
fn field_of<'a>(bag: &'a Val, at: usize) -> Option<&'a Val>
    ensures { (v : model.Value) → (option_map (λ found. plain found.now) result ≡ Some v)
        ↔ IsOfField at (plain bag.now) v }
{
    match bag {
        Val::Bag(values) => values.get(at),
        _ => None,
    }
}

/// The values of the field at a place, of the bags that have it.
fn fields_of<'a>(alloc: Global, bags: &[&'a Val], at: usize) -> Result<Vec<&'a Val>, Memory>
    ensures { IfOk result (λ found. (v : model.Value) → IsIn v (values_of found.items)
        ↔ ((bag : model.Value) × IsIn bag (values_of bags.now) × IsOfField at bag v)) }
{
    let mut found = Vec::new(alloc);
    for bag in bags {
        if let Some(value) = field_of(*bag, at) {
            found.push(value)?;
        }
    }
    Ok(found)
}

/// Whether a value says nothing, or one of the others alone says what it says.
fn is_said_alone(value: &Val, others: &[&Val]) -> bool
    requires { AreOfOneShape (plain value.now ∷ values_of others.now) }
    ensures { IsTrue result ↔ (IsBottom (plain value.now)
        ⊎ ((v : model.Value) × IsIn v (values_of others.now) × IsValueBelow (plain value.now) v)) }
{
    value.is_bottom() || is_below_one(value, others)
}

/// Whether all that a value says others say together. What a taint or a scalar says, one of them
/// says alone.
#[cycle(together)]
pub(crate) fn is_said_by(alloc: Global, value: &Val, others: &[&Val]) -> Result<bool, Memory>
    requires { AreOfOneShape (plain value.now ∷ values_of others.now) }
    ensures { IfOk result
        (λ said. IsTrue said ↔ IsSaidBy (plain value.now) (values_of others.now)) }
{
    match value {
        Val::Set(set) => Ok(are_elements_said(set, others)),
        Val::Counter(counts) => Ok(are_counts_said(counts, others)),
        Val::Map(entries) => are_entries_said(alloc, entries, others),
        Val::Bag(values) => are_values_said(alloc, values, others),
        _ => Ok(is_said_alone(value, others)),
    }
}

/// Whether some other map has each key, and all values there say together what the key's value
/// says.
#[cycle(together)]
fn are_entries_said(alloc: Global, entries: &Entries, others: &[&Val]) -> Result<bool, Memory>
    requires { AreOfOneShape (model.Value.Map entries.now ∷ values_of others.now) }
    ensures { IfOk result (λ said. IsTrue said
        ↔ IsSaidBy (model.Value.Map entries.now) (values_of others.now)) }
{
    for entry in entries.as_slice() {
        let found = values_at(alloc, others, &entry.key)?;
        if found.is_empty() || !is_said_by(alloc, &entry.value, &found)? {
            return Ok(false);
        }
    }
    Ok(true)
}

/// Whether of each field the other bags' values say together what its value says.
#[cycle(together)]
fn are_values_said(alloc: Global, values: &Vals, others: &[&Val]) -> Result<bool, Memory>
    requires { AreOfOneShape (model.Value.Bag values.now ∷ values_of others.now) }
    ensures { IfOk result (λ said. IsTrue said
        ↔ IsSaidBy (model.Value.Bag values.now) (values_of others.now)) }
{
    for at in 0..values.len() {
        let found = fields_of(alloc, others, at)?;
        if !is_said_by(alloc, values.get(at).unwrap(), &found)? {
            return Ok(false);
        }
    }
    Ok(true)
}
