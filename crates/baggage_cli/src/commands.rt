//! The commands, by the names that a user gives them. `runtable` and `runjson` are in [`run`].

pub(crate) mod carry;
pub(crate) mod check;
pub(crate) mod collect;
pub(crate) mod decode;
pub(crate) mod evolve;
pub(crate) mod load;
pub(crate) mod merge;
pub(crate) mod run;
pub(crate) mod table;
pub(crate) mod trim;
pub(crate) mod verify;
pub(crate) mod why;
