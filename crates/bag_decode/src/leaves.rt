//! Fields of one part: taints, scalars, sets and counters, each read after its header.

ghost use Rattle.std.specs.Prelude.{◌≡◌, ◌<◌, ◌≤◌, length, map, IfOk};
ghost use Rattle.std.specs.Option.{option_map};
ghost use Rattle.context_model.specs.Paths.{path_before};
ghost use Rattle.context_model.specs.Varints.{unsigned_varint};
ghost use Rattle.bag_model.specs.Readings.{PathsOf, IsGreatest, Reads};
ghost use Rattle.bag_model.specs.Scalars.{IsScalarOf, spelling};
ghost use Rattle.bag_model.specs.Shapes as shapes;
ghost use Rattle.bag_model.specs.Typed.{IsCount, IsSpelling, IsTyped};
ghost use Rattle.bag_model.specs.Values as values;
ghost use Rattle.bag_walks.specs.Gathering.{IsDatumThatStays};
ghost use Rattle.bag_walks.specs.Parts.{IsBehind, IsSegment};
ghost use Rattle.scalar_types.specs.KindViews.{kind_of};
ghost use Rattle.scalar_types.specs.Scalars.{value_of};
ghost use Rattle.bag_decode.specs.Leaves.{AreCountsAt};

use atom_kinds::rest;
use atom_list::AtomList;
use bag_model::{LEVELS_MAX, Pick};
use bag_scan::{atom, data_end, find_key, first_datum, is_datum, last_datum};
use bag_value::ScalarSet;
use counter_type::Counts;
use lex_varint::take_u64;
use outside::Memory;
use scalar_types::{Codec, Scalar, ScalarKind, TakeFault};
use set_map_types::SetOf;
use std::alloc::Global;

/// Whether a datum follows the header.
pub(crate) fn has_datum(list: &AtomList, from: usize) -> bool
    requires { IsBehind list.now (path_before list.now from) from }
    ensures { Reads shapes.Shape.Taint (PathsOf list.now) (path_before list.now from)
        (values.Value.Taint result) }
{
    first_datum(list, from, data_end(list, from)).is_some()
}

/// The scalar that the bytes are known to spell.
pub(crate) fn take_known(alloc: Global, kind: &ScalarKind, bytes: &[u8]) -> Result<Scalar, Memory>
    requires { IsSpelling (kind_of kind.now) bytes.now }
    ensures fits { IfOk result (λ value. IsScalarOf (kind_of kind.now) (value_of value)) }
    ensures spelled { IfOk result
        (λ value. bytes.now ≡ spelling (kind_of kind.now) (value_of value)) }
{
    match kind.take(alloc, bytes) {
        Ok(value) => Ok(value),
        Err(TakeFault::Memory) => Err(Memory),
        Err(TakeFault::NotSpelled) => unreachable!(),
    }
}

/// The place of the datum of the value that stays: the first where the least stays, and the last
/// where the greatest does.
fn datum_that_stays(pick: Pick, list: &AtomList, from: usize, to: usize) -> Option<usize>
    requires order { from ≤ to }
    requires within { to ≤ length list.now }
    ensures { IsDatumThatStays pick list.now from to result }
{
    match pick {
        Pick::Least => first_datum(list, from, to),
        Pick::Greatest => last_datum(list, from, to),
    }
}

/// The scalar that stays of those of the data after the header.
pub(crate) fn scalar_that_stays(
    alloc: Global,
    pick: Pick,
    kind: &ScalarKind,
    list: &AtomList,
    from: usize,
) -> Result<Option<Scalar>, Memory>
    requires behind { IsBehind list.now (path_before list.now from) from }
    requires typed { IsTyped (shapes.Shape.Scalar pick (kind_of kind.now)) (PathsOf list.now)
        (path_before list.now from) }
    ensures { IfOk result
        (λ found. Reads (shapes.Shape.Scalar pick (kind_of kind.now)) (PathsOf list.now)
        (path_before list.now from) (values.Value.Scalar pick (option_map value_of found))) }
{
    match datum_that_stays(pick, list, from, data_end(list, from)) {
        Some(at) => Ok(Some(take_known(alloc, kind, rest(atom(list, at)))?)),
        None => Ok(None),
    }
}

/// The set of the scalars of all data after the header.
pub(crate) fn set_of(
    alloc: Global,
    kind: &ScalarKind,
    list: &AtomList,
    from: usize,
) -> Result<ScalarSet, Memory>
    requires behind { IsBehind list.now (path_before list.now from) from }
    requires typed { IsTyped (shapes.Shape.Set (kind_of kind.now)) (PathsOf list.now)
        (path_before list.now from) }
    ensures { IfOk result
        (λ set. Reads (shapes.Shape.Set (kind_of kind.now)) (PathsOf list.now)
        (path_before list.now from)
        (values.Value.Set (kind_of set.codec) (map value_of set.items))) }
{
    let mut set = SetOf::new(alloc, kind.copy()?)?;
    for at in from..data_end(list, from) {
        if is_datum(list, at) {
            set.push(take_known(alloc, kind, rest(atom(list, at)))?)?;
        }
    }
    Ok(set)
}

/// The count that the bytes are known to spell.
fn known_count(bytes: &[u8]) -> u64
    requires { IsCount bytes.now }
    ensures { bytes.now ≡ unsigned_varint result }
{
    match take_u64(bytes) {
        Ok((count, _)) => count,
        Err(_) => unreachable!(),
    }
}

/// The greatest count after the header of a writer, which is that of the last datum.
fn last_count(list: &AtomList, from: usize) -> u64
    requires behind { IsBehind list.now (path_before list.now from) from }
    requires counts { AreCountsAt (PathsOf list.now) (path_before list.now from) }
    ensures { IsGreatest (PathsOf list.now) (path_before list.now from) result }
{
    match last_datum(list, from, data_end(list, from)) {
        Some(at) => known_count(rest(atom(list, at))),
        None => 0,
    }
}

/// The count of each writer after the header of a counter, and the place where what is below the
/// header ends.
pub(crate) fn counts_of(
    alloc: Global,
    list: &AtomList,
    level: usize,
    from: usize,
) -> Result<(Counts, usize), Memory>
    requires behind { IsBehind list.now (path_before list.now from) from }
    requires level { length (path_before list.now from) ≡ level }
    requires room { level < LEVELS_MAX }
    requires typed { IsTyped shapes.Shape.Counter (PathsOf list.now) (path_before list.now from) }
    ensures value { IfOk result
        (λ found. Reads shapes.Shape.Counter (PathsOf list.now) (path_before list.now from)
        (values.Value.Counter found.0)) }
    ensures end { IfOk result (λ found. IsSegment list.now level from found.1) }
{
    let mut counts = Counts::new(alloc);
    let mut place = from;
    'keys: loop {
        match find_key(list, level, place) {
            Ok((writer, start)) => {
                counts.push(writer, last_count(list, start))?;
                place = start;
            }
            Err(end) => return Ok((counts, end)),
        }
    }
}
