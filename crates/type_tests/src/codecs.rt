//! Each codec through its bound: a spelling of a known value, and bytes that are no spelling.

use outside::{Octets, Text};
use scalar_types::{
    Codec, Fixed, Flag, LexI, LexU, Raw, SignedFixed, TakeFault, Unit, Utf8, respelled, round_trip,
};
use std::alloc::Global;
use std::cmp::Ordering;
use std::process::Abort;
use std::test::Fail;

/// The value is put as this spelling, after what is there.
fn is_put<C: Codec>(
    rt: &impl Abort,
    alloc: Global,
    codec: &C,
    value: &C::Value,
    spelling: &[u8],
) -> Result<(), Fail> {
    assert!(rt; codec.fits(value));
    let mut bytes = Vec::from_slice(alloc, b"before")?;
    codec.put(value, &mut bytes)?;
    assert!(rt; bytes.len() == 6 + spelling.len());
    assert!(rt; &bytes[6..] == spelling);
    Ok(())
}

/// The value is taken from this spelling.
fn is_taken<C: Codec>(
    rt: &impl Abort,
    alloc: Global,
    codec: &C,
    value: &C::Value,
    spelling: &[u8],
) -> Result<(), Fail> {
    assert!(rt; codec.fits(value));
    assert!(rt; codec.spelled(spelling));
    let taken = codec.take(alloc, spelling)?;
    assert!(rt; codec.compare(&taken, value) == Ordering::Equal);
    Ok(())
}

/// The value has this spelling, by every call of the codec.
pub(crate) fn spells<C: Codec>(
    rt: &impl Abort,
    alloc: Global,
    codec: &C,
    value: &C::Value,
    spelling: &[u8],
) -> Result<(), Fail> {
    let codec = &codec.copy_codec()?;
    let value = &codec.copy(value)?;
    is_put(rt, alloc, codec, value, spelling)?;
    is_taken(rt, alloc, codec, value, spelling)?;
    assert!(rt; codec.fits(value));
    assert!(rt; codec.fits(&round_trip(alloc, codec, value)?));
    assert!(rt; respelled(alloc, codec, spelling)?.as_slice() == spelling);
    Ok(())
}

/// No value has this spelling.
pub(crate) fn refuses<C: Codec>(rt: &impl Abort, alloc: Global, codec: &C, bytes: &[u8]) {
    assert!(rt; !codec.spelled(bytes));
    assert!(rt; matches!(codec.take(alloc, bytes), Err(TakeFault::NotSpelled)));
}

/// The first value is less than the second.
pub(crate) fn rises<C: Codec>(rt: &impl Abort, codec: &C, less: &C::Value, more: &C::Value) {
    assert!(rt; codec.fits(less));
    assert!(rt; codec.fits(more));
    assert!(rt; codec.compare(less, more) == Ordering::Less);
    assert!(rt; codec.compare(more, less) == Ordering::Greater);
}

/// A codec puts and takes a value by its spelling, takes it from no other bytes, and has a greater
/// value.
fn is_codec<C: Codec>(
    rt: &impl Abort,
    alloc: Global,
    codec: &C,
    value: (&C::Value, &[u8]),
    greater: &C::Value,
    refused: &[u8],
) -> Result<(), Fail> {
    spells(rt, alloc, codec, value.0, value.1)?;
    refuses(rt, alloc, codec, refused);
    rises(rt, codec, value.0, greater);
    Ok(())
}

#[test]
fn truth_values_and_nothing(rt: HostRuntime) -> Result<(), Fail> {
    let alloc = rt.alloc();
    spells(&rt, alloc, &Unit, &(), b"")?;
    refuses(&rt, alloc, &Unit, b"\x00");
    is_codec(&rt, alloc, &Flag, (&false, b"\x00"), &true, b"\x02")
}

#[test]
fn texts_and_bytes(rt: HostRuntime) -> Result<(), Fail> {
    let alloc = rt.alloc();
    let text = Text::of(alloc, "a\0")?;
    let more = Text::of(alloc, "b")?;
    is_codec(&rt, alloc, &Utf8, (&text, b"a\x00"), &more, b"\xff")?;
    let octets = Octets::of(alloc, b"\xff")?;
    spells(&rt, alloc, &Raw, &octets, b"\xff")?;
    rises(&rt, &Raw, &octets, &Octets::of(alloc, b"\xff\x00")?);
    Ok(())
}

#[test]
fn varints(rt: HostRuntime) -> Result<(), Fail> {
    let alloc = rt.alloc();
    let narrow = LexU { wide: false };
    is_codec(&rt, alloc, &narrow, (&127, b"\x7f"), &128, b"\x80\x7f")?;
    assert!(rt; !narrow.fits(&4_294_967_296));
    let narrow = LexI { wide: false };
    is_codec(&rt, alloc, &narrow, (&-65, b"\x3f\xbf"), &0, b"\x3f\xc0")?;
    assert!(rt; !narrow.fits(&-2_147_483_649));
    Ok(())
}

#[test]
fn fixed_numbers(rt: HostRuntime) -> Result<(), Fail> {
    let alloc = rt.alloc();
    let narrow = Fixed { wide: false };
    is_codec(
        &rt,
        alloc,
        &narrow,
        (&7, b"\x00\x00\x00\x07"),
        &256,
        b"\x07",
    )?;
    assert!(rt; !narrow.fits(&4_294_967_296));
    let narrow = SignedFixed { wide: false };
    is_codec(&rt, alloc, &narrow, (&-1, b"\x7f\xff\xff\xff"), &0, b"\x07")?;
    assert!(rt; !narrow.fits(&2_147_483_648));
    Ok(())
}
