//! Calls that tie encodings and merges to what is read of them.

ghost use Rattle.std.specs.Prelude.{◌≡◌, List, [], ◌∷◌, IfOk};
ghost use Rattle.context_model.specs.Atoms.{Atom};
ghost use Rattle.context_model.specs.Merged.{IsMerged};
ghost use Rattle.bag_encode.specs.Encoding.{bag_values};
ghost use Rattle.bag_model.specs.Encodings.{FitsAtoms, IsEncoding};
ghost use Rattle.bag_model.specs.Joins.{join};
ghost use Rattle.bag_model.specs.Readings.{PathsOf, Reads};
ghost use Rattle.bag_model.specs.Shapes as shapes;
ghost use Rattle.bag_model.specs.Typed.{AreTyped};
ghost use Rattle.bag_model.specs.Values.{Value, IsOfShape};
ghost use Rattle.bag_value.specs.Vals.{plain};

use atom_list::Context;
use bag_decode::decode;
use bag_encode::encode;
use bag_value::Val;
use bag_value::laws::{encodings_read_back, merges_read_as_joins, values_of_one_shape_are_joined};
use counter_type::Lattice;
use field_table::Table;
use lex_merge::laws::has_one_merge;
use lex_merge::merge;
use outside::Memory;
use std::alloc::Global;

/// What is read of the merge of two typed contexts, and the join of what is read of each. They are
/// one value.
pub fn merge_and_read(
    alloc: Global,
    table: &Table,
    a: &Context,
    b: &Context,
) -> Result<(Val, Val), Memory>
    requires a { AreTyped table.now (PathsOf a.now) [] }
    requires b { AreTyped table.now (PathsOf b.now) [] }
    ensures one { IfOk result (λ two. two.0 ≡ two.1) }
    ensures read { IfOk result (λ two. (merged : List Atom) → IsMerged (a.now ∷ b.now ∷ []) merged
        → Reads (shapes.Shape.Bag table.now) (PathsOf merged) [] (plain two.0)) }
    ensures joined { IfOk result (λ two. (v w : Value)
        → Reads (shapes.Shape.Bag table.now) (PathsOf a.now) [] v
        → Reads (shapes.Shape.Bag table.now) (PathsOf b.now) [] w → plain two.1 ≡ join v w) }
{
    // The proof rests on these laws.
    merges_read_as_joins();
    values_of_one_shape_are_joined();
    has_one_merge();
    let merged = merge(alloc, a, b)?;
    let read = decode(alloc, table, &merged)?;
    let mut joined = decode(alloc, table, a)?;
    joined.join(&decode(alloc, table, b)?)?;
    Ok((read, joined))
}

/// What is read of the encoding of a value: the value.
pub fn encode_and_read(alloc: Global, table: &Table, value: &Val) -> Result<Val, Memory>
    requires shape { IsOfShape (shapes.Shape.Bag table.now) (plain value.now) }
    requires fits { FitsAtoms table.now (bag_values (plain value.now)) }
    ensures one { IfOk result (λ read. read ≡ value.now) }
    ensures read { IfOk result
        (λ read. (list : List Atom) → IsEncoding table.now (bag_values (plain value.now)) list
        → Reads (shapes.Shape.Bag table.now) (PathsOf list) [] (plain read)) }
{
    // The proof rests on these laws, and learns that the fields make a table.
    encodings_read_back();
    merges_read_as_joins();
    let _ = table.nodes();
    let context = encode(alloc, table, value)?;
    let read = decode(alloc, table, &context)?;
    Ok(read)
}
