//! The data of one place that normal form takes away.

ghost use Rattle.std.specs.Prelude.{◌≤◌, length, OnOk, IfOk};
ghost use Rattle.context_model.specs.Paths.{path_before};
ghost use Rattle.bag_model.specs.NormalForm.{LeastDatum, GreatestDatum, kept_by};
ghost use Rattle.bag_walks.specs.Parts.{IsBehind, IsDataPart};
ghost use Rattle.bag_normal.specs.Known.{GivesWayAt};
ghost use Rattle.bag_normal.specs.Data.{RisesUpTo, AddsPlaces, IsDatumBetween};

use atom_list::AtomList;
use bag_model::Pick;
use bag_scan::{data_end, first_datum, is_datum, last_datum};
use outside::Memory;

/// Adds the places of all data from one place up to another.
fn add_data(list: &AtomList, from: usize, to: usize, gone: &mut Vec<usize>) -> Result<(), Memory>
    requires order { from ≤ to }
    requires within { to ≤ length list.now }
    requires rises { RisesUpTo gone.old.items from }
    ensures rises { OnOk result (RisesUpTo gone.new.items to) }
    ensures adds { OnOk result
        (AddsPlaces (IsDatumBetween list.now from to) gone.old.items gone.new.items) }
{
    for at in from..to {
        if is_datum(list, at) {
            gone.push(at)?;
        }
    }
    Ok(())
}

/// Adds the places of all data but that of the value that stays, which is the first where the least
/// stays and the last where the greatest does, and gives the end of the data.
pub(crate) fn add_other_data(
    pick: Pick,
    list: &AtomList,
    from: usize,
    gone: &mut Vec<usize>,
) -> Result<usize, Memory>
    requires behind { IsBehind list.now (path_before list.now from) from }
    requires rises { RisesUpTo gone.old.items from }
    ensures part { IfOk result (IsDataPart list.now from) }
    ensures rises { IfOk result (RisesUpTo gone.new.items) }
    ensures adds { OnOk result
        (AddsPlaces (GivesWayAt (kept_by pick) list.now (path_before list.now from))
        gone.old.items gone.new.items) }
{
    match pick {
        Pick::Least => add_later_data(list, from, gone),
        Pick::Greatest => add_earlier_data(list, from, gone),
    }
}

/// Adds the places of all data but the first, whatever markers are between them, and gives the end
/// of the data.
fn add_later_data(list: &AtomList, from: usize, gone: &mut Vec<usize>) -> Result<usize, Memory>
    requires behind { IsBehind list.now (path_before list.now from) from }
    requires rises { RisesUpTo gone.old.items from }
    ensures part { IfOk result (IsDataPart list.now from) }
    ensures rises { IfOk result (RisesUpTo gone.new.items) }
    ensures adds { OnOk result
        (AddsPlaces (GivesWayAt LeastDatum list.now (path_before list.now from))
        gone.old.items gone.new.items) }
{
    let to = data_end(list, from);
    if let Some(first) = first_datum(list, from, to) {
        add_data(list, first + 1, to, gone)?;
    }
    Ok(to)
}

/// Adds the places of all data but the last, likewise.
pub(crate) fn add_earlier_data(
    list: &AtomList,
    from: usize,
    gone: &mut Vec<usize>,
) -> Result<usize, Memory>
    requires behind { IsBehind list.now (path_before list.now from) from }
    requires rises { RisesUpTo gone.old.items from }
    ensures part { IfOk result (IsDataPart list.now from) }
    ensures rises { IfOk result (RisesUpTo gone.new.items) }
    ensures adds { OnOk result
        (AddsPlaces (GivesWayAt GreatestDatum list.now (path_before list.now from))
        gone.old.items gone.new.items) }
{
    let to = data_end(list, from);
    if let Some(last) = last_datum(list, from, to) {
        add_data(list, from, last, gone)?;
    }
    Ok(to)
}
