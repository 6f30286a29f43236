//! Tests of values, tables and views that are made by hand, of generic code at values, and of laws.
//! The rows are in `rows_bags`. This crate contains tests alone.
#![tactic(auto)]

#[cfg(test)]
mod tables;
#[cfg(test)]
mod vals;
