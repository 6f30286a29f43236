//! Values and contexts of bags as texts, and the encodings and joins of values, for the trials.
#![tactic(auto)]

use atom_list::Context;
use bag_codec::{State, Val, can_encode, check_typed, decode_slot, encode, state_of};
use bag_value::laws::values_of_one_shape_are_joined;
use counter_type::Lattice;
use field_table::Table;
use report_text::put_value;
use std::alloc::Global;
use std::test::Fail;

/// The encoding of a value, which can be encoded.
pub fn encoded(alloc: Global, table: &Table, value: &Val) -> Result<Context, Fail> {
    if can_encode(table, value) {
        Ok(encode(alloc, table, value)?)
    } else {
        Err(Fail::from("a value of the table's shapes can be encoded"))
    }
}

/// The join of two values, each of which can be encoded.
pub fn join_of(table: &Table, ours: &Val, theirs: &Val) -> Result<Val, Fail> {
    // The proof rests on this law.
    values_of_one_shape_are_joined();
    if can_encode(table, ours) && can_encode(table, theirs) {
        let mut joined = ours.copy()?;
        joined.join(theirs)?;
        Ok(joined)
    } else {
        Err(Fail::from("values of the table's shapes can be encoded"))
    }
}

/// A line for each field of the table with what a value has there.
pub fn fields_of(alloc: Global, table: &Table, value: &Val) -> Result<Vec<u8>, Fail> {
    let Val::Bag(values) = value else {
        return Err(Fail::from("no bag"));
    };
    let mut lines = Vec::new(alloc);
    let fields = table.nodes();
    for at in 0..fields.len() {
        let field = fields.get(at).ok_or("a field")?;
        put_value(&field.shape, values.get(at).ok_or("a value")?, &mut lines)?;
        lines.push(b'\n')?;
    }
    Ok(lines)
}

/// A line for each slot of the table with what a context says of it. No slot may have been cut off.
pub fn slots_of(alloc: Global, table: &Table, context: &Context) -> Result<Vec<u8>, Fail> {
    if check_typed(table, context).is_err() {
        return Err(Fail::from("an ill-typed atom"));
    }
    let mut lines = Vec::new(alloc);
    for slot in 0..table.slots() {
        if state_of(table, context, slot) == State::Partial {
            return Err(Fail::new(format_args!("slot {slot} may have been cut")));
        }
        let value = decode_slot(alloc, table, context, slot)?;
        put_value(table.shape(slot), &value, &mut lines)?;
        lines.push(b'\n')?;
    }
    Ok(lines)
}
