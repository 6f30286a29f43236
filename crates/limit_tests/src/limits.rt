//! Inputs and files at the edge of what is read.

use fixture_program::{FILES, Objects, RUN, answer_of_line, expect_row};
use std::alloc::Global;
use std::fmt::Write;
use std::test::Fail;

/// A long text: what it begins with, how often a piece is copied and the piece, and what it ends
/// with. In the copies `@` is the number of the copy, from 1 on, and `%` the next one.
type Long = (&'static str, &'static str, usize, &'static str);

/// Spells out a long text.
fn spelled(alloc: Global, long: &Long) -> Result<String, Fail> {
    let (before, piece, copies, behind) = long;
    let mut text = String::from_str(alloc, before)?;
    let is_same = !piece.contains(['@', '%']);
    for copy in 0..*copies {
        if is_same {
            text.push_str(piece)?;
        } else {
            put_copy(&mut text, piece, copy.saturating_add(1))?;
        }
    }
    text.push_str(behind)?;
    Ok(text)
}

/// Appends the copy of this number.
fn put_copy(text: &mut String, piece: &str, number: usize) -> Result<(), Fail> {
    let alloc = *text.allocator();
    for symbol in piece.chars() {
        match symbol {
            '@' => text.push_str(format!(in alloc; "{number}")?.as_str())?,
            '%' => text.push_str(format!(in alloc; "{}", number.saturating_add(1))?.as_str())?,
            _ => text.push(symbol)?,
        }
    }
    Ok(())
}

/// A call with a long input: its words, the input, its status, and what it writes.
type Row = (&'static str, Long, u8, &'static str);

static INPUTS: [Row; 30] = [
    // The longest lines.
    ("trim 1", ("", "0", 2_097_152, ""), 0, "00\n"),
    ("trim 1", ("", "0", 2_097_152, "\r\n"), 0, "00\n"),
    (
        "trim 1",
        ("", "0", 2_097_153, ""),
        2,
        "input line 1 HexTooLong\n",
    ),
    (
        "trim 1",
        ("", "0", 2_097_153, "\r\n"),
        2,
        "input line 1 HexTooLong\n",
    ),
    (
        "trim 1",
        ("", "0", 2_097_154, ""),
        2,
        "input line 1 HexTooLong\n",
    ),
    (
        "trim 1",
        ("", "0", 3_000_000, "\r\n"),
        2,
        "input line 1 HexTooLong\n",
    ),
    // The longest inputs.
    ("merge", ("", "#", 16_777_216, ""), 0, "-\n"),
    (
        "trim 9",
        ("", "#", 16_777_216, ""),
        2,
        "input line 0 NoLine\n",
    ),
    (
        "merge",
        ("", "#", 16_777_217, ""),
        2,
        "input line 0 TooLong\n",
    ),
    (
        "trim 9",
        ("", "#", 16_777_217, ""),
        2,
        "input line 0 TooLong\n",
    ),
    (RUN, ("", "#", 16_777_217, ""), 2, "input line 0 TooLong\n"),
    // The most lines.
    ("merge", ("", "02f800\n", 4096, ""), 0, "02f800\n"),
    (
        "merge",
        ("", "02f800\n", 4096, "02f800"),
        2,
        "input line 4097 TooManyLines\n",
    ),
    // An offset after a length of two bytes.
    (
        "decode q.bdl Req",
        ("02f801800100", "61", 127, "0200ff"),
        3,
        "context line 1 offset 133 IllTyped\n",
    ),
    // The most bytes of pieces, which are no context, and one more.
    (
        "collect",
        ("p 0 1 ", "////", 349_525, "/w==\n"),
        3,
        "context line 0 offset 0 AtomTooLong\n",
    ),
    (
        "collect",
        ("p 0 1 ", "////", 349_525, "//8=\n"),
        2,
        "input line 0 TooManyBytes\n",
    ),
    // The most steps and parents.
    (
        RUN,
        ("service a all\nstart 0 a\n", "branch @ 0\n", 99_999, ""),
        0,
        "",
    ),
    (
        RUN,
        (
            "service a all\nstart 0 a\nstart 1 a\n",
            "branch % @\n",
            99_998,
            "",
        ),
        0,
        "",
    ),
    (
        RUN,
        ("service a all\nstart 0 a\n", "branch @ 0\n", 100_000, ""),
        2,
        "input line 100002 TooManySteps\n",
    ),
    (
        RUN,
        ("service a all\nstart 0 a\njoin 1", " 0", 4096, ""),
        0,
        "",
    ),
    (
        RUN,
        ("service a all\nstart 0 a\njoin 1", " 0", 4097, ""),
        2,
        "input line 3 TooManyParents\n",
    ),
    // The longest received contexts.
    (
        RUN,
        ("service a all\nstart 0 a\nrecv 1 a ", "00", 1_048_576, ""),
        0,
        "",
    ),
    (
        RUN,
        ("service a all\nstart 0 a\nrecv 1 a ", "00", 1_048_577, ""),
        2,
        "input line 3 HexTooLong\n",
    ),
    // The longest written atoms.
    (
        RUN,
        (
            "service a all\nstart 0 a\nset 1 0 tags \"",
            "k",
            65_534,
            "\"",
        ),
        0,
        "",
    ),
    (
        RUN,
        (
            "service a all\nstart 0 a\nset 1 0 tags \"",
            "k",
            65_535,
            "\"",
        ),
        2,
        "input line 3 BadValue\n",
    ),
    (
        RUN,
        (
            "service a all\nstart 0 a\nset 1 0 hops \"",
            "k",
            65_534,
            "\":1",
        ),
        0,
        "",
    ),
    (
        RUN,
        (
            "service a all\nstart 0 a\nset 1 0 hops \"",
            "k",
            65_535,
            "\":1",
        ),
        2,
        "input line 3 BadValue\n",
    ),
    (
        RUN,
        (
            "service a all\nstart 0 a\nset 1 0 load \"",
            "k",
            65_534,
            "\":1",
        ),
        0,
        "",
    ),
    (
        RUN,
        (
            "service a all\nstart 0 a\nset 1 0 load \"",
            "k",
            65_535,
            "\":1",
        ),
        2,
        "input line 3 BadValue\n",
    ),
    (
        RUN,
        (
            "service2 a all\nstart 0 a\nset 1 0 load \"",
            "k",
            65_535,
            "\":1",
        ),
        0,
        "",
    ),
];

/// A graph with a long string, and the two parts of its report.
static WIDE: Long = (
    "service2 w all\nservice n none\nstart 0 w\nset 1 0 tags \"",
    "a",
    70_000,
    "\"\nforward 2 1 n\nshow 2\n",
);

static WIDE_BYTES: Long = (
    "step 2\nbytes ffffff02000000000001117702f801c1117100",
    "61",
    70_000,
    "\nid exact -\ntags exact {\"",
);

static WIDE_VALUE: Long = (
    "",
    "a",
    70_000,
    "\"}\nhops exact 0{}\ndebug exact off\nload exact {}\n",
);

#[test]
fn long_inputs(rt: HostRuntime) -> Result<(), Fail> {
    let alloc = rt.alloc();
    for (line, long, status, text) in &INPUTS {
        let input = spelled(alloc, long)?;
        expect_row(&rt, alloc, FILES, line, input.as_bytes(), *status, text)?;
    }
    Ok(())
}

/// A long atom is shown after a head, also at a service that writes none.
#[test]
fn a_long_atom(rt: HostRuntime) -> Result<(), Fail> {
    let alloc = rt.alloc();
    let wide = spelled(alloc, &WIDE)?;
    let bytes = spelled(alloc, &WIDE_BYTES)?;
    let value = spelled(alloc, &WIDE_VALUE)?;
    let report = format!(in alloc; "{bytes}{value}")?;
    expect_row(&rt, alloc, FILES, RUN, wide.as_bytes(), 0, report.as_str())
}

/// What follows an input that is too long is left.
#[test]
fn what_is_left_of_a_long_input(rt: HostRuntime) -> Result<(), Fail> {
    let alloc = rt.alloc();
    let input = spelled(alloc, &("", "#", 16_777_216, "\n-"))?;
    let mut objects = Objects::new(alloc, FILES, input.as_bytes())?;
    let came = answer_of_line(&rt, alloc, "merge", &mut objects)?;
    assert_eq!(rt; came.status, 2);
    assert_eq!(rt; came.left.as_slice(), b"-".as_slice());
    Ok(())
}

/// A call with long files: its words, the files, an input, the status, and what it writes.
type FileRow = (&'static str, Long, &'static str, u8, Long);

static LONG_FILES: [FileRow; 13] = [
    // The deepest bags.
    (
        "check chain.bdl B0",
        (
            "chain.bdl|bag B0 { B1 f = 0; }\n",
            "bag B@ { B% f = 0; }\n",
            14,
            "bag B15 { bool b = 0; }\n",
        ),
        "",
        0,
        ("ok 1\n", "", 0, ""),
    ),
    (
        "check chain.bdl B0",
        (
            "chain.bdl|bag B0 { B1 f = 0; }\n",
            "bag B@ { B% f = 0; }\n",
            15,
            "bag B16 { bool b = 0; }\n",
        ),
        "",
        1,
        ("definition chain.bdl 1:5 TooDeep\n", "", 0, ""),
    ),
    // The most files.
    (
        "check f0.bdl B",
        (
            "f0.bdl|import \"f1.bdl\";",
            "\n\nf@.bdl|import \"f%.bdl\";",
            62,
            "\n\nf63.bdl|bag B { }",
        ),
        "",
        0,
        ("ok 0\n", "", 0, ""),
    ),
    (
        "check f0.bdl B",
        (
            "f0.bdl|import \"f1.bdl\";",
            "\n\nf@.bdl|import \"f%.bdl\";",
            63,
            "\n\nf64.bdl|bag B { }",
        ),
        "",
        1,
        ("definition f63.bdl 1:8 TooManyFiles\n", "", 0, ""),
    ),
    // Each of two definitions has the most files.
    (
        "evolve f0.bdl f0.bdl B",
        (
            "f0.bdl|import \"f1.bdl\";",
            "\n\nf@.bdl|import \"f%.bdl\";",
            62,
            "\n\nf63.bdl|bag B { }",
        ),
        "",
        0,
        ("ok 0\n", "", 0, ""),
    ),
    (
        "evolve f1.bdl f0.bdl B",
        (
            "f0.bdl|import \"f1.bdl\";",
            "\n\nf@.bdl|import \"f%.bdl\";",
            63,
            "\n\nf64.bdl|bag B { }",
        ),
        "",
        1,
        ("definition f63.bdl 1:8 TooManyFiles\n", "", 0, ""),
    ),
    // The longest files.
    (
        "check long.bdl B",
        ("long.bdl|", " ", 1_048_576, ""),
        "",
        1,
        ("definition long.bdl 1:1 NoSuchBag\n", "", 0, ""),
    ),
    (
        "check long.bdl B",
        ("long.bdl|", " ", 1_048_577, ""),
        "",
        1,
        ("definition long.bdl 1:1 DefTooLong\n", "", 0, ""),
    ),
    (
        "runtable t",
        ("t|", "a", 1_048_576, ""),
        "",
        1,
        ("definition t 1:1 Head\n", "", 0, ""),
    ),
    (
        "runtable t",
        ("t|", "a", 1_048_577, ""),
        "",
        1,
        ("definition t 1:1 DefTooLong\n", "", 0, ""),
    ),
    (
        "verify q.bdl Req c",
        (
            "q.bdl|bag Req { fixed32 id = 0; }\n\nc|",
            "x",
            1_048_576,
            "",
        ),
        "service a all\nstart 0 a\n",
        0,
        ("no 1 Form\n", "", 0, ""),
    ),
    (
        "verify q.bdl Req c",
        (
            "q.bdl|bag Req { fixed32 id = 0; }\n\nc|",
            "x",
            1_048_577,
            "",
        ),
        "service a all\nstart 0 a\n",
        1,
        ("definition c 1:1 DefTooLong\n", "", 0, ""),
    ),
    // The most slots.
    (
        "run wide.bdl Wide",
        (
            "wide.bdl|bag Wide { bool f0 = 0;",
            " bool f@ = @;",
            16_383,
            " }",
        ),
        "service a all\nstart 0 a\nset 1 0 f16383 true\nshow 1\n",
        0,
        (
            "step 1\nbytes 03f8bfff020001\nf0 exact -\n",
            "f@ exact -\n",
            16_382,
            "f16383 exact true\n",
        ),
    ),
];

#[test]
fn long_files(rt: HostRuntime) -> Result<(), Fail> {
    let alloc = rt.alloc();
    for (line, long, input, status, text) in &LONG_FILES {
        let files = spelled(alloc, long)?;
        let text = spelled(alloc, text)?;
        expect_row(
            &rt,
            alloc,
            files.as_str(),
            line,
            input.as_bytes(),
            *status,
            text.as_str(),
        )?;
    }
    Ok(())
}

/// The lines of 4,096 contexts of one datum each, in no order, with a comment before each, and the
/// line of their merge.
fn data_lines(alloc: Global) -> Result<(String, String), Fail> {
    let mut lines = String::new(alloc);
    let mut merged = String::new(alloc);
    for at in 0..4096_u32 {
        let number = at * 1021 % 4096;
        writeln!(lines, "#\n0300{number:04x}")?;
        write!(merged, "0300{at:04x}")?;
    }
    merged.push('\n')?;
    Ok((lines, merged))
}

/// Lines after those, the status, and what is written where it isn't the merge.
static BEHIND: [(&str, u8, &str); 5] = [
    ("", 0, ""),
    ("#\n\n", 0, ""),
    ("-\n", 2, "input line 8193 TooManyLines\n"),
    ("0\n", 2, "input line 8193 TooManyLines\n"),
    ("0101", 2, "input line 8193 TooManyLines\n"),
];

#[test]
fn many_lines(rt: HostRuntime) -> Result<(), Fail> {
    let alloc = rt.alloc();
    let (lines, merged) = data_lines(alloc)?;
    for (behind, status, text) in &BEHIND {
        let input = format!(in alloc; "{lines}{behind}")?;
        let text = if *status == 0 { merged.as_str() } else { *text };
        expect_row(&rt, alloc, FILES, "merge", input.as_bytes(), *status, text)?;
    }
    Ok(())
}
