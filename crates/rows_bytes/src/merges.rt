//! Rows of merges.

use crate::answers::expect_atoms;
use crate::fields::{context_of, list_of};
use atom_list::{AtomList, Context};
use fan_in::merge_alone;
use lex_merge::{merge, merge_lists, merge_many};
use row_files::{Reason, Row, RowFault, Told};
use std::alloc::Global;

/// The contexts of the row's own fields `context`, in order.
fn contexts_of(alloc: Global, row: Row<'_>) -> Result<Vec<Context>, RowFault> {
    let mut contexts = Vec::new(alloc);
    for field in row.own {
        if field.name() == "context" {
            contexts.push(context_of(alloc, field)?)?;
        }
    }
    Ok(contexts)
}

/// Tells where the merge of two contexts isn't that of the row.
fn expect_merged(
    alloc: Global,
    one: &Context,
    other: &Context,
    row: Row<'_>,
    told: &mut Told<'_>,
) -> Result<(), RowFault> {
    let merged = merge(alloc, one, other)?;
    expect_atoms(alloc, "merged", merged.list(), row, told)
}

/// Merges contexts at all places, on one thread, and if they are two then the one with the other,
/// in either order.
fn merge_places(
    alloc: Global,
    contexts: &[Context],
    row: Row<'_>,
    told: &mut Told<'_>,
) -> Result<(), RowFault> {
    if let [one, other] = contexts {
        expect_merged(alloc, one, other, row, told)?;
        expect_merged(alloc, other, one, row, told)?;
    }
    let mut places = Vec::new(alloc);
    for place in 0..contexts.len() {
        places.push(place)?;
    }
    if !places.iter().all(|place| *place < contexts.len()) {
        return Ok(());
    }
    let merged = merge_alone(alloc, contexts, &places)?;
    expect_atoms(alloc, "merged", merged.list(), row, told)
}

/// Runs a row of contexts that are merged.
pub fn run_merge(alloc: Global, row: Row<'_>, told: &mut Told<'_>) -> Result<(), RowFault> {
    row.check_names(&["call", "merged"], &["context"])?;
    let contexts = contexts_of(alloc, row)?;
    merge_places(alloc, &contexts, row, told)?;
    let merged = merge_many(alloc, contexts)?;
    expect_atoms(alloc, "merged", merged.list(), row, told)
}

/// The lists of the row's own fields `list`, in order.
fn lists_of(alloc: Global, row: Row<'_>) -> Result<Vec<AtomList>, RowFault> {
    let mut lists = Vec::new(alloc);
    for field in row.own {
        if field.name() == "list" {
            lists.push(list_of(alloc, field)?)?;
        }
    }
    Ok(lists)
}

/// Tells where the merge of two lists isn't that of the row.
fn expect_merged_lists(
    alloc: Global,
    one: &AtomList,
    other: &AtomList,
    row: Row<'_>,
    told: &mut Told<'_>,
) -> Result<(), RowFault> {
    let merged = merge_lists(alloc, one, other)?;
    expect_atoms(alloc, "merged", &merged, row, told)
}

/// Runs a row of two lists that are merged, in either order.
pub fn run_merge_lists(alloc: Global, row: Row<'_>, told: &mut Told<'_>) -> Result<(), RowFault> {
    row.check_names(&["call", "merged"], &["list"])?;
    let lists = lists_of(alloc, row)?;
    let [one, other] = lists.as_slice() else {
        return Err(RowFault::At(row.line, Reason::Lacks("list")));
    };
    expect_merged_lists(alloc, one, other, row, told)?;
    expect_merged_lists(alloc, other, one, row, told)
}
