//! What each act gives.

ghost use Rattle.std.specs.Prelude.{map, IfOk};
ghost use Rattle.bag_model.specs.NormalForm.{IsNormalOf};
ghost use Rattle.bag_value.specs.Vals.{plain};
ghost use Rattle.field_table.specs.Views.{plain_view_of};
ghost use Rattle.recorded_graph.specs.Plain.{act_of};
ghost use Rattle.trace_model.specs.Graphs.{parents_of, IsSoundAct, IsActOf, MayBeWritten};
ghost use Rattle.trace_model.specs.Runs.{list_at, Gives, IsNormalMerge, IsNormalWrite};
ghost use Rattle.step_rules.specs.Parents.{AreWithinLists, ArePlacesOf};

use crate::parents::first;
use atom_list::Context;
use bag_encode::encode_slot;
use bag_normal::normal;
use bag_value::Val;
use fan_in::Merge;
use field_table::{Table, View};
use lex_merge::merge;
use outside::Memory;
use overflow_trim::trimmed_copy;
use recorded_graph::{Act, Service};
use std::alloc::Global;

/// The normal form of a copy of a context.
fn normal_copy(
    alloc: Global,
    table: &Table,
    view: &View,
    context: &Context,
) -> Result<Context, Memory>
    ensures { IfOk result (IsNormalOf table.now (plain_view_of view.now) context.now) }
{
    let copied = context.copy()?;
    normal(alloc, table, view, copied)
}

/// The normal form of a context with a value that is written to a slot.
fn written(
    alloc: Global,
    table: &Table,
    view: &View,
    slot: usize,
    value: &Val,
    before: &Context,
) -> Result<Context, Memory>
    requires { MayBeWritten table.now (plain_view_of view.now) slot (plain value.now) }
    ensures { IfOk result
        (IsNormalWrite table.now (plain_view_of view.now) slot (plain value.now) before.now) }
{
    let written = encode_slot(alloc, table, slot, value)?;
    let merged = merge(alloc, before, &written)?;
    normal(alloc, table, view, merged)
}

/// The normal form of the merge of the lists at the places.
fn joined<M: Merge>(
    merger: &M,
    alloc: Global,
    table: &Table,
    view: &View,
    pool: &[Context],
    places: &[usize],
) -> Result<Context, Memory>
    requires ready { M.ready merger.now }
    requires places { AreWithinLists pool.now places.now }
    ensures { IfOk result
        (IsNormalMerge table.now (plain_view_of view.now) (map (list_at pool.now) places.now)) }
{
    let merged = merger.merge_all(alloc, pool, places)?;
    normal(alloc, table, view, merged)
}

/// What an act gives at a service, where its parents' lists are at the places.
pub(crate) fn give<M: Merge>(
    merger: &M,
    alloc: Global,
    table: &Table,
    service: &Service,
    act: &Act,
    pool: &[Context],
    places: &[usize],
) -> Result<Context, Memory>
    requires ready { M.ready merger.now }
    requires sound { IsSoundAct service.now.form (act_of act.now) }
    requires may { IsActOf table.now (plain_view_of service.now.view) (act_of act.now) }
    requires places { ArePlacesOf (parents_of (act_of act.now)) pool.now places.now }
    ensures { IfOk result
        (Gives table.now service.now.form (plain_view_of service.now.view) (act_of act.now)
        (map (list_at pool.now) places.now)) }
{
    match act {
        Act::Start => Ok(Context::empty(alloc)),
        Act::Recv(received) => normal_copy(alloc, table, &service.view, received),
        Act::Set {
            parent: _,
            slot,
            write,
        } => written(
            alloc,
            table,
            &service.view,
            *slot,
            write,
            first(pool, places),
        ),
        Act::Branch { parent: _ } => first(pool, places).copy(),
        Act::Forward { parent: _ } => normal_copy(alloc, table, &service.view, first(pool, places)),
        Act::Trim { parent: _, budget } => trimmed_copy(service.form, first(pool, places), *budget),
        Act::Join { parents: _ } => joined(merger, alloc, table, &service.view, pool, places),
    }
}
