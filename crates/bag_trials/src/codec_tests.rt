//! Random values of random bags: what is read of a merge of their encodings, against their join.

use atom_list::Context;
use bag_codec::{Val, Vals, bottom, can_encode, check_typed, decode, merge, normal};
use field_table::{Table, View};
use fixture_bags::{encoded, fields_of, join_of, slots_of};
use fixture_tables::table_of;
use random_bags::{Dice, random_bag, random_definition};
use scalar_types::{KindList, ScalarKind, ScalarWord};
use set_map_types::SetOf;
use std::alloc::Global;
use std::process::Abort;
use std::test::Fail;
use wire_bytes::{Form, write};

/// How deep a value may be. No bag here is so deep.
const LEVELS: usize = 8;

/// The merge of contexts in a random order and grouping.
fn merge_all(alloc: Global, dice: &mut Dice, contexts: Vec<Context>) -> Result<Context, Fail> {
    let mut contexts = contexts;
    while 1 < contexts.len() {
        let at = dice.below(contexts.len());
        let one = contexts.remove(at);
        let at = dice.below(contexts.len());
        let other = contexts.remove(at);
        contexts.push(merge(alloc, &one, &other)?)?;
    }
    Ok(contexts.pop().ok_or("a context")?)
}

/// Compares what is read of a merge with the join, as texts. A difference is reported with the
/// definition.
fn reads_as<R: Abort>(
    rt: &R,
    alloc: Global,
    definition: &str,
    table: &Table,
    merged: &Context,
    joined: &Val,
) -> Result<(), Fail> {
    if check_typed(table, merged).is_err() {
        panic!(rt; "{definition}");
    }
    let read = decode(alloc, table, merged)?;
    assert_eq!(rt;
        fields_of(alloc, table, &read)?,
        fields_of(alloc, table, joined)?,
        "{definition}"
    );
    Ok(())
}

/// Adds the encoding of one more random value to the contexts, one time in two twice, and answers
/// its join with the others.
fn add_random(
    alloc: Global,
    dice: &mut Dice,
    table: &Table,
    joined: &Val,
    contexts: &mut Vec<Context>,
) -> Result<Val, Fail> {
    let value = random_bag(alloc, dice, table.nodes(), LEVELS)?;
    let context = encoded(alloc, table, &value)?;
    if dice.flips() {
        contexts.push(context.copy()?)?;
    }
    contexts.push(context)?;
    join_of(table, joined, &value)
}

/// Compares the slots of a merge with those of the encoding of the join, as texts, and the normal
/// form of the merge with it, as bytes. A difference is reported with the definition.
fn is_written_as<R: Abort>(
    rt: &R,
    alloc: Global,
    definition: &str,
    table: &Table,
    merged: Context,
    joined: &Val,
) -> Result<(), Fail> {
    let whole = encoded(alloc, table, joined)?;
    let slots = slots_of(alloc, table, &whole)?;
    assert_eq!(rt; slots_of(alloc, table, &merged)?, slots, "{definition}");
    let fewest = normal(alloc, table, &View::All, merged)?;
    let bytes = write(alloc, Form::One, whole.list())?;
    assert_eq!(rt;
        write(alloc, Form::One, fewest.list())?,
        bytes,
        "{definition}"
    );
    Ok(())
}

/// Joins random values of a bag, merges their encodings, some of them twice, and compares what
/// comes of both.
fn joins_as_merged<R: Abort>(
    rt: &R,
    alloc: Global,
    dice: &mut Dice,
    definition: &str,
) -> Result<(), Fail> {
    let table = table_of(alloc, definition, "Outer")?;
    let mut joined = bottom(alloc, &table)?;
    let mut contexts = Vec::new(alloc);
    for _ in 0..3 {
        joined = add_random(alloc, dice, &table, &joined, &mut contexts)?;
    }
    let merged = merge_all(alloc, dice, contexts)?;
    reads_as(rt, alloc, definition, &table, &merged, &joined)?;
    is_written_as(rt, alloc, definition, &table, merged, &joined)
}

#[test]
fn random_values_join_as_merged(rt: HostRuntime) -> Result<(), Fail> {
    let alloc = rt.alloc();
    let mut dice = Dice::new(41);
    for _ in 0..150 {
        let definition = random_definition(alloc, &mut dice)?;
        joins_as_merged(&rt, alloc, &mut dice, definition.as_str())?;
    }
    Ok(())
}

/// A bag of two empty sets, one of texts and one of structs of a text and this word.
fn two_sets(alloc: Global, second: ScalarWord) -> Result<Val, Fail> {
    let mut words = KindList::new(alloc);
    words.push(ScalarWord::Str)?;
    words.push(second)?;
    let mut values = Vals::new(alloc);
    values.push(Val::Set(SetOf::new(alloc, ScalarKind::One(ScalarWord::Str))?))?;
    values.push(Val::Set(SetOf::new(alloc, ScalarKind::Packed(words))?))?;
    Ok(Val::Bag(values))
}

#[test]
fn sets_name_the_kinds_of_their_fields(rt: HostRuntime) -> Result<(), Fail> {
    let alloc = rt.alloc();
    let packed =
        "struct Packed { string a; int32 b; } bag Outer { set<string> o = 0; set<Packed> p = 1; }";
    let table = table_of(alloc, packed, "Outer")?;
    assert!(rt; can_encode(&table, &two_sets(alloc, ScalarWord::Int32)?));
    assert!(rt; !can_encode(&table, &two_sets(alloc, ScalarWord::Sint32)?));
    let words = table_of(
        alloc,
        "bag Outer { set<string> o = 0; set<bytes> p = 1; }",
        "Outer",
    )?;
    assert!(rt; !can_encode(&words, &two_sets(alloc, ScalarWord::Int32)?));
    Ok(())
}
