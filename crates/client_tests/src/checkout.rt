//! The whole way, from a definition to what is read after services that know no type.

use crate::fields::{DEFINITION, branches, coupons_of, order_of};
use checkout_client::{FieldFault, read_field, write_field};
use fixture_tables::table_of;
use forwarding::forward;
use std::test::Fail;
use terncommode::{Form, State, forward_bytes};

#[test]
fn two_branches_come_together(rt: HostRuntime) -> Result<(), Fail> {
    let alloc = rt.alloc();
    let table = table_of(alloc, DEFINITION, "Req")?;
    let (order, coupon) = branches(alloc, &table)?;

    // A service that knows no definition merges them. There is room for both, so all that is read
    // is exact.
    let mut buffer = [0; 17];
    let size = forward(&order, &coupon, &mut buffer)?;
    let sent = &buffer[..size.min(17)];
    assert!(rt; order_of(alloc, &table, sent)? == (State::Exact, 7));
    let (state, coupons) = coupons_of(alloc, &table, sent)?;
    assert!(rt; state == State::Exact && coupons.as_str() == "spring");

    // The same is read where there is a head.
    let mut buffer = [0; 40];
    let size = forward_bytes(Form::Two, &order, &coupon, 29, &mut buffer)?;
    let sent = &buffer[..size.min(40)];
    assert!(rt; order_of(alloc, &table, sent)? == (State::Exact, 7));
    let (state, coupons) = coupons_of(alloc, &table, sent)?;
    assert!(rt; state == State::Exact && coupons.as_str() == "spring");
    Ok(())
}

#[test]
fn what_is_cut_off_is_told(rt: HostRuntime) -> Result<(), Fail> {
    let alloc = rt.alloc();
    let table = table_of(alloc, DEFINITION, "Req")?;
    let (order, coupon) = branches(alloc, &table)?;

    // With a byte less the coupon is cut off. The reader is told that there may have been more
    // coupons. The order is whole.
    let mut buffer = [0; 16];
    let size = forward(&coupon, &order, &mut buffer)?;
    let sent = &buffer[..size.min(16)];
    assert!(rt; order_of(alloc, &table, sent)? == (State::Exact, 7));
    let (state, coupons) = coupons_of(alloc, &table, sent)?;
    assert!(rt; state == State::Partial && coupons.as_str() == "");
    Ok(())
}

#[test]
fn refusals(rt: HostRuntime) -> Result<(), Fail> {
    let alloc = rt.alloc();
    let table = table_of(alloc, DEFINITION, "Req")?;
    assert!(rt; write_field(alloc, &table, "orders", "7")?.is_none());
    assert!(rt; write_field(alloc, &table, "order", "seven")?.is_none());
    let unknown = read_field(alloc, &table, b"", "orders");
    assert!(rt; matches!(unknown, Err(FieldFault::NoField)));
    let broken = read_field(alloc, &table, b"\x80\x00", "order");
    assert!(rt; matches!(broken, Err(FieldFault::NoContext { offset: 0, .. })));
    let ill_typed = read_field(alloc, &table, b"\x02\xf8\x00\x01\x00", "order");
    assert!(rt; matches!(ill_typed, Err(FieldFault::IllTyped { place: 1 })));
    Ok(())
}
