//! Structs of scalars: their kinds and values as lists, and what no text says.

use crate::codecs::{refuses, spells};
use outside::{Memory, Text};
use scalar_types::{
    Codec, KindList, Scalar, ScalarKind, ScalarList, ScalarWord, spellings_keep_order,
};
use std::alloc::Global;
use std::process::Abort;
use std::test::Fail;

/// The kind of structs of a text and a number with a sign.
fn pair_kind(alloc: Global) -> Result<ScalarKind, Memory> {
    let mut kinds = KindList::new(alloc);
    kinds.push(ScalarWord::Str)?;
    kinds.push(ScalarWord::Int32)?;
    Ok(ScalarKind::Packed(kinds))
}

/// The value of a struct of a text and a number with a sign.
fn pair(alloc: Global, text: &str, number: i64) -> Result<Scalar, Memory> {
    let mut values = ScalarList::new(alloc);
    values.push(Scalar::Str(Text::of(alloc, text)?))?;
    values.push(Scalar::Signed(number))?;
    Ok(Scalar::Packed(values))
}

#[test]
fn values_of_no_field(rt: HostRuntime) -> Result<(), Fail> {
    let alloc = rt.alloc();
    let kind = pair_kind(alloc)?;
    let nothing = ScalarKind::Packed(KindList::new(alloc));
    let none = Scalar::Packed(ScalarList::new(alloc));
    assert!(rt; !kind.fits(&none));
    assert!(rt; !kind.is_same(&nothing));
    spells(&rt, alloc, &nothing, &none, b"")?;
    refuses(&rt, alloc, &nothing, b"\x00");
    spellings_keep_order();
    Ok(())
}

/// A copy of two kinds grows apart from them.
fn grows_apart(rt: &impl Abort, shared: &KindList) -> Result<(), Fail> {
    let mut copied = shared.copy()?.shared()?;
    copied.push(ScalarWord::Bool)?;
    copied.push(ScalarWord::Bytes)?;
    assert_eq!(rt; copied.len(), 4);
    assert!(rt; matches!(copied.get(0), Some(ScalarWord::Str)));
    assert!(rt; matches!(copied.get(3), Some(ScalarWord::Bytes)));
    assert_eq!(rt; shared.len(), 2);
    assert!(rt; matches!(shared.get(1), Some(ScalarWord::Int32)));
    assert!(rt; shared.get(2).is_none());
    Ok(())
}

#[test]
fn shared_kinds(rt: HostRuntime) -> Result<(), Fail> {
    let alloc = rt.alloc();
    let mut kinds = KindList::new(alloc);
    kinds.push(ScalarWord::Str)?;
    kinds.push(ScalarWord::Int32)?;
    let shared = kinds.shared()?;
    grows_apart(&rt, &shared)?;
    let kind = ScalarKind::Packed(shared);
    let value = pair(alloc, "a", -1)?;
    let spelling = b"\x61\x00\x01\x7f".as_slice();
    spells(&rt, alloc, &kind, &value, spelling)?;
    spells(&rt, alloc, &kind.copy()?, &value, spelling)
}

#[test]
fn lists_of_values(rt: HostRuntime) -> Result<(), Fail> {
    let alloc = rt.alloc();
    let mut kinds = KindList::new(alloc);
    assert!(rt; kinds.is_empty());
    kinds.push(ScalarWord::Fixed32)?;
    assert_eq!(rt; kinds.as_slice().len(), 1);
    let mut values = ScalarList::new(alloc);
    assert!(rt; values.is_empty());
    values.push(Scalar::Str(Text::of(alloc, "")?))?;
    values.push(Scalar::Unsigned(7))?;
    assert_eq!(rt; values.len(), 2);
    assert_eq!(rt; values.as_slice().len(), 2);
    assert!(rt; matches!(values.get(1), Some(Scalar::Unsigned(7))));
    assert!(rt; values.get(2).is_none());
    Ok(())
}
