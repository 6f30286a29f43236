//! Tests of the program at its limits: long inputs and files, the longest load, objects that fail,
//! and gates that steps pass. This crate contains tests alone.
#![tactic(auto)]

#[cfg(test)]
mod failures;
#[cfg(test)]
mod gates;
#[cfg(test)]
mod limits;
#[cfg(test)]
mod loads;
