//! The world outside the library: its faults, small types over text and bytes, and the traits of a
//! source, a sink and a library of files, each with objects in memory that tell what they hold.
#![tactic(auto)]

mod answers;
mod failures;
mod faults;
mod gates;
mod in_memory;
mod libraries;
mod streams;
mod texts;
mod transfers;

pub use answers::{Failed, LibraryFault, Memory, OrMemory, ReadFault};
pub use context_model::ATOM_MAX;
pub use faults::FaultCount;
pub use gates::{Gate, MeetingGate, Open};
pub use in_memory::{MemorySink, MemorySource, SureSink, SureSource};
pub use libraries::{Library, MemoryLibrary, SureLibrary};
pub use streams::{Sink, Source};
pub use texts::{Octets, Text, WordIter, Words};
pub use transfers::{read_all, write_all};

/// The most bytes that are fetched of a file: one more than a definition or a table may have, so
/// that one that is too long is known.
pub const FETCH_MAX: usize = 1_048_577;
