//! A call of the program over objects in memory, and what it must come to, for the crates of tests.
#![tactic(auto)]

mod calls;
mod objects;
mod rows;

pub use calls::{Answer, answer_of_line, call};
pub use objects::{Objects, library_of};
pub use rows::{expect_row, output_of};

/// The definitions that most calls are made with. In a text of files each one begins with its name
/// and a bar, and an empty line is between two.
pub const FILES: &str =
    r#"q.bdl|bag Req { fixed32 id = 0; set<string> tags = 1; counter hops = 2; taint debug = 3; map<string, uint32> load = 4; }

p.bdl|struct P { string s; int32 n; } bag B { P p = 0; }

o.bdl|bag In { bool ok = 2; } bag Out { In sub = 1; }

t.bdl|bag T { bool b = 0; uint32 u = 1; uint64 v = 2; int32 i = 3; int64 j = 4; fixed32 f = 5; fixed64 g = 6; sfixed32 h = 7; sfixed64 k = 8; string s = 9; bytes x = 10; }

m.bdl|bag In { set<bytes> seen = 0; counter by = 1; taint hit = 2; uint32 low = 3; } bag M { map<int32, In> rows = 0; map<bool, map<string, counter>> counts = 1; In in = 2; set<sfixed32> at = 3; }

two.bdl|import "q.bdl"; bag In { bool ok = 0; } bag Two { map<bool, In> by = 0; In at = 2; }

none.bdl|bag B { }

g.bdl|bag G { greatest<uint32> top = 0; }

wide.bdl|bag Req { fixed32 id = 0; set<string> tags = 1; counter hops = 2; taint debug = 3; map<string, uint32> load = 4; greatest<uint32> peak = 5; }"#;

/// The words that run a graph of a request.
pub const RUN: &str = "run q.bdl Req";
