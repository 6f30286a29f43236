//! Random trials of the codec of bags. This crate contains tests alone.
#![tactic(auto)]

#[cfg(test)]
mod codec_tests;
