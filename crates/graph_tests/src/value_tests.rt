//! Texts of values that no context says.

use bag_value::Val;
use field_table::Shape;
use report_text::{put_value, value_text};
use scalar_types::{Scalar, ScalarKind, ScalarList, ScalarWord};
use std::test::Fail;

/// A struct without fields, and a counter that is a scalar.
#[test]
fn texts_stand_after_one_another(rt: HostRuntime) -> Result<(), Fail> {
    let alloc = rt.alloc();
    let mut text = Vec::from_slice(alloc, b"a=")?;
    put_value(&Shape::Taint, &Val::Taint(true), &mut text)?;
    put_value(&Shape::Counter, &Val::Scalar(None), &mut text)?;
    let none = Val::Scalar(Some(Scalar::Packed(ScalarList::new(alloc))));
    let string = Shape::Scalar(ScalarKind::One(ScalarWord::Str));
    put_value(&string, &none, &mut text)?;
    assert_eq!(rt; text.as_slice(), b"a=on-()".as_slice());
    let alone = value_text(alloc, &none, &string)?;
    assert_eq!(rt; alone.as_slice(), b"()".as_slice());
    Ok(())
}
