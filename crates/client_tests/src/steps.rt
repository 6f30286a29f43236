//! A service that knows a table: the step that it takes, what it lets out of that, and where the
//! fields are in the bytes.

use crate::fields::{DEFINITION, branches, coupons_of, order_of};
use fixture_tables::table_of;
use std::test::Fail;
use terncommode::{
    EXACT, Form, Input, Others, Place, State, keep, keep_into, places_into, print_table,
    read_context, update, update_into, write,
};

/// The order and the coupon, as `docs/FORMATS.md` has the bytes of contexts.
const SENT: &[u8] = b"\x02\xf8\x00\x02\x00\x07\x02\xf8\x01\x07\x00spring";

/// The order alone.
const KEPT: &[u8] = b"\x02\xf8\x00\x02\x00\x07";

/// The field that others may see.
const PUBLIC: &str = "bag Req { uint64 order = 0; }";

#[test]
fn a_step_joins_what_it_gets(rt: HostRuntime) -> Result<(), Fail> {
    let alloc = rt.alloc();
    let table = table_of(alloc, DEFINITION, "Req")?;
    let (order, coupon) = branches(alloc, &table)?;
    let received = read_context(alloc, order.as_slice())?;
    let written = read_context(alloc, coupon.as_slice())?;
    let sent = update(
        alloc,
        Form::One,
        &table,
        vec![in alloc; received, written]?,
        17,
    )?;
    let bytes = write(alloc, Form::One, sent.list())?;
    assert!(rt; bytes.as_slice() == SENT);

    // The same from bytes to bytes, with a line for the write.
    let table = print_table(alloc, &table)?;
    let inputs = [Input {
        bytes: order.as_slice(),
    }];
    let line = b"coupons \"spring\"\n".as_slice();
    let mut room = [0; 17];
    let size = update_into(
        alloc,
        Form::One,
        table.as_slice(),
        &inputs,
        line,
        17,
        &mut room,
    )?;
    assert!(rt; &room[..size.min(17)] == SENT);
    Ok(())
}

#[test]
fn what_leaves_tells_of_the_rest(rt: HostRuntime) -> Result<(), Fail> {
    let alloc = rt.alloc();
    let table = table_of(alloc, DEFINITION, "Req")?;
    let public = table_of(alloc, PUBLIC, "Req")?;
    let kept = keep(alloc, Others::Cut, &public, &read_context(alloc, SENT)?)?;
    let bytes = write(alloc, Form::One, kept.list())?;
    assert!(rt; order_of(alloc, &table, bytes.as_slice())? == (State::Exact, 7));
    let (state, coupons) = coupons_of(alloc, &table, bytes.as_slice())?;
    assert!(rt; state == State::Partial && coupons.as_str() == "");

    // From bytes to bytes, for readers who know the public table alone.
    let public = print_table(alloc, &public)?;
    let inputs = [Input { bytes: SENT }];
    let mut room = [0; 17];
    let size = keep_into(
        alloc,
        Form::One,
        Others::Unsaid,
        public.as_slice(),
        &inputs,
        17,
        &mut room,
    )?;
    assert!(rt; &room[..size.min(17)] == KEPT);
    Ok(())
}

#[test]
fn fields_are_in_their_places(rt: HostRuntime) -> Result<(), Fail> {
    let alloc = rt.alloc();
    let table = print_table(alloc, &table_of(alloc, DEFINITION, "Req")?)?;
    let nowhere = Place {
        offset: 0,
        length: 0,
        state: 0,
        zero: 0,
    };
    let mut places = [nowhere; 2];
    let (form, slots) = places_into(alloc, table.as_slice(), SENT, &mut places)?;
    assert!(rt; form == Form::One && slots == 2);
    let [order, coupons] = places;
    assert!(rt; order.offset == 3 && order.length == 3 && order.state == EXACT);
    assert!(rt; coupons.offset == 9 && coupons.length == 8 && coupons.state == EXACT);
    Ok(())
}
