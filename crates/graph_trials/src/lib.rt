//! Random trials of graphs: what the program shows of their steps, against plain values. This crate
//! contains tests alone.
#![tactic(auto)]

#[cfg(test)]
mod random_graphs;
