//! Fields and views that are made by hand, and the laws of name paths.

use field_table::{Shape, SlotSet, Slots, View, name_paths_differ, ranges_are_exact};
use scalar_types::{ScalarKind, ScalarWord};
use std::process::Abort;
use std::test::Fail;

#[test]
fn fields_stand_in_order(rt: HostRuntime) -> Result<(), Fail> {
    let mut slots = Slots::new(rt.alloc());
    assert!(rt; slots.is_empty());
    slots.add("tags", 1, Shape::Set(ScalarKind::One(ScalarWord::Str)))?;
    slots.add("id", 4, Shape::Taint)?;
    assert!(rt; slots.len() == 2);
    assert!(rt; !slots.is_empty());
    let first = slots.get(0).expect(&rt, "there is a first field");
    assert!(rt; first.name.as_str() == "tags" && first.number == 1);
    assert!(rt; matches!(first.shape, Shape::Set(ScalarKind::One(ScalarWord::Str))));
    let second = slots.get(1).expect(&rt, "there is a second field");
    assert!(rt; second.name.as_str() == "id" && second.number == 4);
    assert!(rt; slots.get(2).is_none());
    name_paths_differ();
    ranges_are_exact();
    Ok(())
}

#[test]
fn views_know_their_slots(rt: HostRuntime) -> Result<(), Fail> {
    let alloc = rt.alloc();
    assert!(rt; View::All.knows(7));
    assert!(rt; !View::Nothing.knows(0));
    let mut slots = SlotSet::new(alloc);
    slots.push_range(3, 3)?;
    assert!(rt; slots.is_empty());
    slots.push_range(1, 2)?;
    slots.push_range(2, 5)?;
    slots.push_range(8, 9)?;
    assert!(rt; !slots.is_empty());
    let view = View::Only(slots);
    for (slot, known) in "0111100010".chars().enumerate() {
        assert!(rt; view.knows(slot) == (known == '1'));
    }
    Ok(())
}

#[test]
fn slots_of_a_set_are_counted(rt: HostRuntime) -> Result<(), Fail> {
    let mut slots = SlotSet::new(rt.alloc());
    assert!(rt; slots.len() == 0);
    slots.push_range(1, 4)?;
    slots.push(8)?;
    assert!(rt; slots.len() == 4);
    assert!(rt; slots.get(0) == Some(1) && slots.get(2) == Some(3));
    assert!(rt; slots.get(3) == Some(8) && slots.get(4).is_none());
    Ok(())
}
