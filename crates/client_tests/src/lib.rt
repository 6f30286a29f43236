//! Tests of a client of the codec, of services that forward what it writes or take the step, and of
//! the laws of their definitions. This crate contains tests alone.
#![tactic(auto)]

#[cfg(test)]
mod checkout;
#[cfg(test)]
mod fields;
#[cfg(test)]
mod laws;
#[cfg(test)]
mod steps;
