//! The fields of the definition of these tests, written and read.

use checkout_client::{read_field, write_field};
use std::alloc::Global;
use std::test::Fail;
use terncommode::{Scalar, State, Table, Val};

/// The definition: an order, and what may be taken off it.
pub const DEFINITION: &str = "bag Req { uint64 order = 0; set<string> coupons = 1; }";

/// The bytes that two branches send: one writes the order, and one writes a coupon.
pub fn branches(alloc: Global, table: &Table) -> Result<(Vec<u8>, Vec<u8>), Fail> {
    let order = write_field(alloc, table, "order", "7")?.ok_or("an order")?;
    let coupon = write_field(alloc, table, "coupons", "\"spring\"")?.ok_or("a coupon")?;
    Ok((order, coupon))
}

/// The number of the order, with whether that is all that was said of it.
pub fn order_of(alloc: Global, table: &Table, bytes: &[u8]) -> Result<(State, u64), Fail> {
    let read = read_field(alloc, table, bytes, "order")?;
    match &read.value {
        Val::Scalar(Some(Scalar::Unsigned(number))) => Ok((read.state, *number)),
        _ => Err(Fail::from("no order")),
    }
}

/// The coupons, one after another, with whether these are all.
pub fn coupons_of(alloc: Global, table: &Table, bytes: &[u8]) -> Result<(State, String), Fail> {
    let read = read_field(alloc, table, bytes, "coupons")?;
    let Val::Set(set) = &read.value else {
        return Err(Fail::from("no set"));
    };
    let mut coupons = String::new(alloc);
    for at in 0..set.len() {
        if let Some(Scalar::Str(coupon)) = set.get(at) {
            coupons.push_str(coupon.as_str())?;
        }
    }
    Ok((read.state, coupons))
}
