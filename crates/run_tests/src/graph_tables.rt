//! Graphs that are run, with their reports.

use std::alloc::Global;
use std::fmt::Write;
use std::test::Fail;

/// A request that goes through twelve services and comes back.
pub const TRACE: &str = r#"service gateway all
service auth all
service cart all
service billing all
service search only tags
service stock only hops load
service ads only id debug
service p1 none
service p2 none
service p3 none
service p4 none
service p5 none
start 0 gateway
set 1 0 id 4660
set 2 1 tags "web"
set 3 2 hops "gw":1
branch 4 3
branch 5 3
branch 6 3
branch 7 3
branch 8 3
branch 9 3
branch 10 3
branch 11 3
forward 12 4 p1
forward 13 12 auth
set 14 13 hops "auth":1
set 15 14 tags "eu"
forward 16 15 p1
forward 17 5 p2
forward 18 17 cart
set 19 18 load "cart":300
set 20 19 hops "cart":2
forward 21 20 p2
forward 22 6 p3
forward 23 22 billing
set 24 23 debug on
set 25 24 load "bill":70
forward 26 25 p3
forward 27 7 search
set 28 27 tags "q"
set 29 28 tags "web"
forward 30 29 p4
forward 31 8 stock
set 32 31 hops "stock":4
set 33 32 load "stock":12
set 34 33 load "cart":280
forward 35 34 p5
forward 36 9 ads
set 37 36 id 4100
set 38 37 debug on
forward 39 38 p5
forward 40 10 p4
forward 41 40 auth
set 42 41 hops "auth":3
forward 43 42 p4
set 44 11 hops "gw":2
forward 45 44 p3
join 46 26 45
join 47 30 43
join 48 35 39
forward 49 21 p1
forward 50 46 p1
forward 51 47 p1
forward 52 48 p1
join 53 16 49 50 51 52
forward 54 53 p2
trim 55 54 96
forward 56 55 gateway
forward 57 53 gateway
join 58 56 57
set 59 58 hops "gw":3
show 53
show 55
show 57
show 59
"#;

/// What four steps of it say.
pub const TRACE_REPORT: &str = "step 53
bytes 02f80005000000100405000000123402f80103006575020071040077656202f80205f16175746802000102000305f16361727402000203f1677702000102000206f173746f636b02000402f803010002f80405f162696c6c02004605f163617274030081180300812c06f173746f636b02000c
id exact 4100
tags exact {\"eu\",\"q\",\"web\"}
hops exact 11{0x61757468:3,0x63617274:2,0x6777:2,0x73746f636b:4}
debug exact on
load exact {\"bill\":70,\"cart\":280,\"stock\":12}
top exact -
step 55
bytes 02f80005000000100405000000123402f80103006575020071040077656202f80205f16175746802000102000305f16361727402000203f1677702000102000206f173746f636b02000402f803010002f80405f162696c6c02004600
id exact 4100
tags exact {\"eu\",\"q\",\"web\"}
hops exact 11{0x61757468:3,0x63617274:2,0x6777:2,0x73746f636b:4}
debug exact on
load partial {\"bill\":70}
top partial -
step 57
bytes 02f80005000000100402f80103006575020071040077656202f80205f16175746802000305f16361727402000203f1677702000206f173746f636b02000402f803010002f80405f162696c6c02004605f1636172740300811806f173746f636b02000c
id exact 4100
tags exact {\"eu\",\"q\",\"web\"}
hops exact 11{0x61757468:3,0x63617274:2,0x6777:2,0x73746f636b:4}
debug exact on
load exact {\"bill\":70,\"cart\":280,\"stock\":12}
top exact -
step 59
bytes 02f80005000000100402f80103006575020071040077656202f80205f16175746802000305f16361727402000203f1677702000306f173746f636b02000402f803010002f80405f162696c6c0200460005f1636172740300811806f173746f636b02000c
id exact 4100
tags exact {\"eu\",\"q\",\"web\"}
hops exact 12{0x61757468:3,0x63617274:2,0x6777:3,0x73746f636b:4}
debug exact on
load partial {\"bill\":70,\"cart\":280,\"stock\":12}
top partial -
";

/// What the last step of a load of one round says.
pub const LOAD_REPORT: &str = r#"step 42
bytes 02f8000500000f423902f80103f1773002000103f1773102000103f1773202000103f1773302000103f1773402000103f1773502000103f1773602000103f1773702000102f802020000020001020002020003020004020005020006020007
least exact 999993
hits exact 8{0x7730:1,0x7731:1,0x7732:1,0x7733:1,0x7734:1,0x7735:1,0x7736:1,0x7737:1}
seen exact {0,1,2,3,4,5,6,7}
"#;

/// Two contexts that are received, joined, cut and sent on.
pub const RECEIVED: &str = "service a all
recv 0 a 02f8010100
recv 1 a 02f8020100
join 2 1 0
trim 3 2 9
forward 4 3 a
branch 5 3
start 6 a
show 0
show 1
show 2
show 3
show 4
show 5
show 6
";

/// What its steps say: an atom too many is cut off.
pub const RECEIVED_REPORT: &str = "step 0
bytes 02f8010100
step 1
bytes 02f8020100
step 2
bytes 02f801010002f8020100
step 3
bytes 02f801010002f80200
step 4
bytes 02f801010002f80200
step 5
bytes 02f801010002f80200
step 6
bytes -
";

/// A context that goes to a service that writes in form two, is cut there, and goes back; and one
/// that is received in form two.
pub const FORMS: &str = "service a all
service2 w all
recv 0 a 02f8010100
forward 1 0 w
trim 2 1 16
forward 3 2 a
recv 4 w ffffff02000000000000000502f8020100
forward 5 4 a
show 0
show 1
show 2
show 3
show 4
show 5
";

/// What its steps say: each in the form of its service, and the head counts where it is cut.
pub const FORMS_REPORT: &str = "step 0
bytes 02f8010100
step 1
bytes ffffff02000000000000000502f8010100
step 2
bytes ffffff02000000000000000402f80100
step 3
bytes 02f80100
step 4
bytes ffffff02000000000000000502f8020100
step 5
bytes 02f8020100
";

/// The words for some steps from a number on, modulo the number of steps.
fn round(alloc: Global, steps: usize, from: usize, count: usize) -> Result<String, Fail> {
    let mut words = String::new(alloc);
    for number in 0..count {
        let parent = from.wrapping_add(number).checked_rem(steps).unwrap_or(0);
        write!(words, " {parent}")?;
    }
    Ok(words)
}

/// What a step after others does: another kind for each number, a join of few parents and one of
/// many among them.
fn line(alloc: Global, own: usize, steps: usize, number: usize) -> Result<String, Fail> {
    let parent = round(alloc, steps, number, 1)?;
    Ok(match number % 5 {
        0 => format!(in alloc; "branch {own}{parent}\n")?,
        1 => format!(in alloc; "forward {own}{parent} a\n")?,
        2 => format!(in alloc; "trim {own}{parent} 30\n")?,
        3 => format!(in alloc; "join {own}{}\n", round(alloc, steps, number, 2)?)?,
        _ => format!(in alloc; "join {own}{}\n", round(alloc, steps, number, 70)?)?,
    })
}

/// A graph whose first rank receives 80 contexts of two atoms; after it come 160 steps of all kinds
/// whose parents are among the 80, and as many whose parents are anywhere.
pub fn mixed_text(alloc: Global) -> Result<String, Fail> {
    let mut text = String::from_str(alloc, "service a all\n")?;
    for number in 0..80u8 {
        writeln!(text, "recv {number} a 02f8{number:02x}0100")?;
    }
    for number in 0..160 {
        text.push_str(line(alloc, 80 + number, 80, number)?.as_str())?;
    }
    for number in 0..160 {
        let own = 240 + number;
        text.push_str(line(alloc, own, 80 + number, 3 * number)?.as_str())?;
    }
    Ok(text)
}

/// A graph where two steps receive the same context, of `headers` headers with three data each, and
/// `count` steps join them.
pub fn joins_text(alloc: Global, headers: u8, count: u8) -> Result<String, Fail> {
    let mut digits = String::new(alloc);
    for number in 0..headers {
        write!(digits, "02f8{number:02x}020000020001020002")?;
    }
    let mut text = format!(in alloc; "service a all\nrecv 0 a {digits}\nrecv 1 a {digits}\n")?;
    for number in 0..count {
        let own = u32::from(number) + 2;
        writeln!(text, "join {own} 0 1")?;
    }
    Ok(text)
}
