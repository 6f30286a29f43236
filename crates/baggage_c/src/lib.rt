//! The static library for other languages. Its exports are declared and described in
//! `include/baggage.h`; each restates what is proved of the call that it makes. To C a slice is a
//! pointer and then a length, and `alloc` is no argument, since it has no bytes: memory comes from
//! the program's `malloc`.
#![tactic(auto)]

mod answers;
mod choices;
mod exports;
mod field_answers;
mod field_exports;
mod step_answers;
mod step_exports;
mod table_answers;
mod table_exports;
