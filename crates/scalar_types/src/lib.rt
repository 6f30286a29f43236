//! Codecs: types of values with one spelling in bytes each, whose byte order is the order of the
//! values.
//!
//! A type of one's own is a [`Codec`]: which values fit, how one is spelled, and how it is read
//! back.
//!
//! ```rust
//! let kind = ScalarKind::One(ScalarWord::Uint32);
//! let mut bytes = Vec::new(alloc);
//! let codec = LexU { wide: false };                         // numbers of 32 bits
//! codec.put(&300, &mut bytes)?;                             // the bytes 81 2c
//! codec.take(alloc, &bytes)?                                // 300
//! ```
#![tactic(auto)]

mod codec;
mod escapes;
mod fixed_codecs;
mod fronts;
mod kind_codec;
mod kinds;
mod laws;
mod packed;
mod plain_codecs;
mod scalars;
mod sharing;
mod varint_codecs;
mod word_codecs;

pub use bag_model::ScalarWord;
pub use codec::{Codec, TakeFault, respelled, round_trip};
pub use fixed_codecs::{Fixed, SignedFixed};
pub use kinds::{KindList, ScalarKind};
pub use laws::spellings_keep_order;
pub use plain_codecs::{Flag, Raw, Unit, Utf8};
pub use scalars::{Scalar, ScalarList};
pub use varint_codecs::{LexI, LexU};
