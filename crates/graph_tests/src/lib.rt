//! Tests of recorded graphs, of what is written of them, and of loads: what no row of the program can
//! say. This crate contains tests alone.
#![tactic(auto)]

#[cfg(test)]
mod fixtures;
#[cfg(test)]
mod growth_tests;
#[cfg(test)]
mod laws;
#[cfg(test)]
mod load_tests;
#[cfg(test)]
mod report_tests;
#[cfg(test)]
mod text_tests;
#[cfg(test)]
mod value_tests;
