//! Rows of the kinds of scalars: their words, spellings and order.

use crate::faults::{RunFault, holds};
use crate::fields::bytes_named;
use crate::scalars::{kind_named, scalar_of};
use row_files::{Row, Told};
use scalar_types::{Codec, Scalar, ScalarKind, ScalarWord, TakeFault, respelled, round_trip};
use std::alloc::Global;
use std::cmp::Ordering;

/// Runs a row of `scalar_word`: a text is a scalar word, which tells it again, or it is none.
pub fn run_word(row: Row<'_>, told: &mut Told<'_>) -> Result<(), RunFault> {
    row.check_names(&["call", "text", "word"], &[])?;
    let word = match ScalarWord::of_bytes(row.needed("text")?.text()?.as_bytes()) {
        Some(word) => word.text(),
        None => "",
    };
    told.expect_bytes("word", word.as_bytes(), row.value("word"))?;
    Ok(())
}

/// Tells where a value isn't put as this spelling, after what is there.
fn expect_put(
    alloc: Global,
    kind: &ScalarKind,
    value: &Scalar,
    spelling: &[u8],
    told: &mut Told<'_>,
) -> Result<(), RunFault> {
    if !kind.fits(value) {
        return Err(RunFault::No("fits"));
    }
    let mut bytes = Vec::from_slice(alloc, b"before")?;
    kind.put(value, &mut bytes)?;
    holds("before", bytes.starts_with(b"before"))?;
    told.expect_bytes("put", bytes.get(6..).unwrap_or(&[]), spelling)?;
    Ok(())
}

/// Sees that two values are equal in the order of their kind.
fn see_equal(kind: &ScalarKind, one: &Scalar, other: &Scalar) -> Result<(), RunFault> {
    if kind.fits(one) && kind.fits(other) {
        return holds("equal", kind.compare(one, other) == Ordering::Equal);
    }
    Err(RunFault::No("fits"))
}

/// Tells where a value isn't taken from this spelling.
fn expect_taken(
    alloc: Global,
    kind: &ScalarKind,
    value: &Scalar,
    spelling: &[u8],
    told: &mut Told<'_>,
) -> Result<(), RunFault> {
    holds("spelled", kind.spelled(spelling))?;
    see_equal(kind, &kind.take(alloc, spelling)?, value)?;
    if !kind.fits(value) {
        return Err(RunFault::No("fits"));
    }
    see_equal(kind, &round_trip(alloc, kind, value)?, value)?;
    let again = respelled(alloc, kind, spelling)?;
    told.expect_bytes("spelled again", &again, spelling)?;
    Ok(())
}

/// Sees that no value of the kind has this spelling.
fn see_unspelled(alloc: Global, kind: &ScalarKind, bytes: &[u8]) -> Result<(), RunFault> {
    holds("unspelled", !kind.spelled(bytes))?;
    match kind.take(alloc, bytes) {
        Err(TakeFault::NotSpelled) => Ok(()),
        Err(TakeFault::Memory) => Err(RunFault::Memory),
        Ok(_) => Err(RunFault::No("refused")),
    }
}

/// Runs a row of `spell`: a value of a kind has this spelling, or none has it.
pub fn run_spell(alloc: Global, row: Row<'_>, told: &mut Told<'_>) -> Result<(), RunFault> {
    row.check_names(&["call", "kind", "text", "bytes"], &[])?;
    let kind = kind_named(alloc, row.needed("kind")?)?;
    let spelling = bytes_named(alloc, row, "bytes")?;
    let Some(text) = row.field("text") else {
        return see_unspelled(alloc, &kind, &spelling);
    };
    let value = scalar_of(alloc, &kind, text)?;
    let kind = kind.copy_codec()?;
    let copied = <ScalarKind as Codec>::copy(&kind, &value)?;
    expect_put(alloc, &kind, &copied, &spelling, told)?;
    expect_taken(alloc, &kind, &value, &spelling, told)
}

/// Runs a row of `fits`: whether a value of one kind is one of another.
pub fn run_fits(alloc: Global, row: Row<'_>, told: &mut Told<'_>) -> Result<(), RunFault> {
    row.check_names(&["call", "kind", "of", "text", "fits"], &[])?;
    let kind = kind_named(alloc, row.needed("kind")?)?;
    let other = kind_named(alloc, row.needed("of")?)?;
    let value = scalar_of(alloc, &other, row.needed("text")?)?;
    expect_yes("fits", kind.fits(&value), row, told)
}

/// Tells where an answer isn't that of the row's field of this name, `yes` or `no`.
fn expect_yes(
    name: &'static str,
    is: bool,
    row: Row<'_>,
    told: &mut Told<'_>,
) -> Result<(), RunFault> {
    let word = if is { "yes" } else { "no" };
    told.expect_bytes(name, word.as_bytes(), row.value(name))?;
    Ok(())
}

/// Runs a row of `same`: whether two kinds are the same.
pub fn run_same(alloc: Global, row: Row<'_>, told: &mut Told<'_>) -> Result<(), RunFault> {
    row.check_names(&["call", "kind", "other_kind", "same"], &[])?;
    let kind = kind_named(alloc, row.needed("kind")?)?;
    let other = kind_named(alloc, row.needed("other_kind")?)?;
    expect_yes("same", kind.is_same(&other), row, told)?;
    expect_yes("same", other.is_same(&kind.copy_codec()?), row, told)
}

/// The word of an order.
fn word_of(order: Ordering) -> &'static str {
    match order {
        Ordering::Less => "less",
        Ordering::Equal => "equal",
        Ordering::Greater => "greater",
    }
}

/// Tells where an order isn't that of the row, or the reverse one isn't its reverse.
fn expect_order(
    order: Ordering,
    reverse: Ordering,
    row: Row<'_>,
    told: &mut Told<'_>,
) -> Result<(), RunFault> {
    told.expect_bytes("order", word_of(order).as_bytes(), row.value("order"))?;
    holds("the reverse", reverse == order.reverse())
}

/// Runs a row of `compare`: how two values are to one another, of one kind or of two.
pub fn run_compare(alloc: Global, row: Row<'_>, told: &mut Told<'_>) -> Result<(), RunFault> {
    row.check_names(
        &["call", "kind", "text", "other_kind", "other", "order"],
        &[],
    )?;
    let name = row.needed("kind")?;
    let kind = kind_named(alloc, name)?;
    let other_kind = kind_named(alloc, row.field("other_kind").unwrap_or(name))?;
    let one = scalar_of(alloc, &kind, row.needed("text")?)?;
    let other = scalar_of(alloc, &other_kind, row.needed("other")?)?;
    expect_order(one.order(&other), other.order(&one), row, told)?;
    if kind.fits(&one) && kind.fits(&other) {
        let reverse = kind.compare(&other, &one);
        expect_order(kind.compare(&one, &other), reverse, row, told)?;
    }
    Ok(())
}
