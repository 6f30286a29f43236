//! Tests of types and values that no row can be: generic code at its types, values and lists made
//! by hand, and laws. The rows are in `rows_types`. This crate contains tests alone.
#![tactic(auto)]

#[cfg(test)]
mod codecs;
#[cfg(test)]
mod counts;
#[cfg(test)]
mod priorities;
#[cfg(test)]
mod sets_and_maps;
#[cfg(test)]
mod structs;
