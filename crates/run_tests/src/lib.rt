//! Tests of runs of recorded graphs: single steps, and whole runs on one thread and on several.
//! This crate contains tests alone.
#![tactic(auto)]

#[cfg(test)]
mod fixtures;
#[cfg(test)]
mod gate_tests;
#[cfg(test)]
mod graph_tables;
#[cfg(test)]
mod run_tests;
#[cfg(test)]
mod step_tests;
