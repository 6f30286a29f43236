//! Bytes as lines and back: in another order, with repeats, with a line lost, and at the limits.

use outside::Memory;
use std::alloc::Global;
use std::test::Fail;
use text_carrier::laws::{
    carried_lines_are_short, carried_lines_come_back, encodings_are_plain, lines_are_definite,
    lines_collect_one_way, lost_lines_are_told,
};
use text_carrier::{
    CARRIED_MAX, CarryFault, WIDTH_MAX, WIDTH_MIN, carry, carry_and_collect, collect,
};
use text_lines::lines_of;

/// `count` bytes, which don't repeat soon.
fn some_bytes(alloc: Global, count: usize) -> Result<Vec<u8>, Memory> {
    let mut bytes = Vec::with_capacity(alloc, count)?;
    let mut state: u32 = 1;
    for _ in 0..count {
        state = state.wrapping_mul(1_664_525).wrapping_add(1_013_904_223);
        bytes.push((state >> 24) as u8)?;
    }
    Ok(bytes)
}

/// The lines of a text, those of the odd ones twice, in another order: each after the one that is
/// `step` lines before it, round the end.
fn shuffled(alloc: Global, text: &[u8], step: usize) -> Result<Vec<u8>, Memory> {
    let mut lines = Vec::new(alloc);
    for line in lines_of(text) {
        lines.push(line.text)?;
    }
    let mut other = Vec::new(alloc);
    let mut at = 0usize;
    for turn in 0..lines.len() {
        at = at.wrapping_add(step) % lines.len();
        for _ in 0..1 + turn % 2 {
            other.extend_from_slice(lines.as_slice()[at])?;
            other.push(b'\n')?;
        }
    }
    Ok(other)
}

/// Whether the answer is these bytes.
fn gives(answer: &Result<Vec<u8>, CarryFault>, bytes: &[u8]) -> bool {
    match answer {
        Ok(back) => back.as_slice() == bytes,
        Err(_) => false,
    }
}

/// The lines of a text except one.
fn without(alloc: Global, text: &[u8], lost: u64) -> Result<Vec<u8>, Memory> {
    let mut rest = Vec::new(alloc);
    for line in lines_of(text) {
        if line.number != lost.saturating_add(1) {
            rest.extend_from_slice(line.text)?;
            rest.push(b'\n')?;
        }
    }
    Ok(rest)
}

/// Widths and numbers of bytes, with a number that has no common factor with that of the pieces.
static SIZES: [(usize, usize, usize); 11] = [
    (4, 0, 1),
    (4, 1, 1),
    (4, 4, 1),
    (4, 5, 1),
    (4, 48, 5),
    (5, 49, 7),
    (7, 1000, 5),
    (100, 300, 2),
    (299, 900, 3),
    (300, 300, 1),
    (300, 1201, 3),
];

#[test]
fn comes_back(rt: HostRuntime) -> Result<(), Fail> {
    let alloc = rt.alloc();
    for (width, count, step) in &SIZES {
        assert!(rt; WIDTH_MIN <= *width && *width <= WIDTH_MAX);
        let bytes = some_bytes(alloc, *count)?;
        assert!(rt; bytes.len() <= CARRIED_MAX);
        let back = carry_and_collect(alloc, bytes.as_slice(), *width);
        assert!(rt; gives(&back, bytes.as_slice()), "at {width} {count}");
        let text = carry(alloc, bytes.as_slice(), *width)?;
        let other = shuffled(alloc, text.as_slice(), *step)?;
        let back = collect(alloc, other.as_slice());
        assert!(rt;
            gives(&back, bytes.as_slice()),
            "at {width} {count} shuffled"
        );
    }
    Ok(())
}

#[test]
fn tells_a_lost_line(rt: HostRuntime) -> Result<(), Fail> {
    let alloc = rt.alloc();
    let bytes = some_bytes(alloc, 1000)?;
    assert!(rt; bytes.len() <= CARRIED_MAX);
    let text = carry(alloc, bytes.as_slice(), 10)?;
    for lost in 0..100 {
        let rest = without(alloc, text.as_slice(), lost)?;
        assert!(rt;
            matches!(collect(alloc, rest.as_slice()), Err(CarryFault::Missing { piece }) if piece == lost),
            "at {lost}"
        );
    }
    Ok(())
}

#[test]
fn carries_the_most(rt: HostRuntime) -> Result<(), Fail> {
    let alloc = rt.alloc();
    let bytes = some_bytes(alloc, CARRIED_MAX)?;
    assert!(rt; bytes.len() <= CARRIED_MAX);
    let text = carry(alloc, bytes.as_slice(), WIDTH_MIN)?;
    assert_eq!(rt; text.len(), 6_442_490);
    let other = shuffled(alloc, text.as_slice(), 100_003)?;
    let back = collect(alloc, other.as_slice());
    assert!(rt; gives(&back, bytes.as_slice()));
    Ok(())
}

#[test]
fn laws_are_there(_rt: HostRuntime) {
    encodings_are_plain();
    lines_are_definite();
    lines_collect_one_way();
    carried_lines_are_short();
    carried_lines_come_back();
    lost_lines_are_told();
}
