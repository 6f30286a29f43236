//! Tests of the layers of bytes that can't be rows of `rows_bytes`: objects in memory, how lists
//! are made, gates and threads, and lines over loops. This crate contains tests alone.
#![tactic(auto)]

#[cfg(test)]
mod atom_tests;
#[cfg(test)]
mod list_tests;
#[cfg(test)]
mod merge_tests;
#[cfg(test)]
mod outside_tests;
#[cfg(test)]
mod round_trips;
