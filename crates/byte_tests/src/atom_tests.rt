//! Headers, by their level and number.

use atom_kinds::{FieldHeader, indexed_prefix, is_key, keyed_prefix};
use std::cmp::Ordering;
use std::process::Abort;

#[test]
fn headers(rt: HostRuntime) {
    let header = FieldHeader::new(1, 4);
    assert!(rt; indexed_prefix(15) == 0x80);
    assert!(rt; keyed_prefix(15) == 0x81);
    assert!(rt; header.is(b"\xf0\x04"));
    assert!(rt; header.order_of(b"\xf0\x03\xff") == Ordering::Less);
    assert!(rt; is_key(b"\xf1w", 1));
    assert!(rt; !is_key(b"\xf1w", 0));
}
