//! Whole transfers: a source to its end, and a piece to its last byte.

ghost use Rattle.std.specs.Prelude.{◌≡◌, ℕ, ◌+◌, ◌^◌, ◌<◌, ◌≤◌, List, length, IfOk, OnOk, OnErr, Err};
ghost use Rattle.std.specs.Io.KnownBytes.{Appends, Consumes, IsAtEnd};
ghost use Rattle.outside.specs.Causes.{HasCause, Rose};
ghost use Rattle.outside.specs.Transfers.{AppendsPart};

use crate::answers::{Failed, ReadFault};
use crate::streams::{Sink, Source};
use std::alloc::Global;

/// The bytes of one read.
const BUFFER: usize = 4096;

/// Reads everything that is left. `TooLong` comes where more than `limit` bytes were there, after
/// `limit + 1` of them were read; `Failed` where a read failed. Each error leaves all except a
/// prefix of at most `limit + 1` bytes.
pub fn read_all<S: Source>(
    alloc: Global,
    source: &mut S,
    limit: usize,
) -> Result<Vec<u8>, ReadFault>
    requires { limit + 1 < 2 ^ 64 }
    ensures all { IfOk result
        (λ bytes. Consumes (S.left source.old) (S.left source.new) bytes.items) }
    ensures end { OnOk result (IsAtEnd (S.left source.new)) }
    ensures fits { IfOk result (λ bytes. length bytes.items ≤ limit) }
    ensures too_long { result ≡ Err ReadFault.TooLong → (front : List ℕ)
        × (length front ≡ limit + 1) × Consumes (S.left source.old) (S.left source.new) front }
    ensures kept { OnErr result ((front : List ℕ)
        × (length front ≤ limit + 1) × Consumes (S.left source.old) (S.left source.new) front) }
    ensures later { S.faults source.old ≤ S.faults source.new }
    ensures steady { OnOk result (S.faults source.new ≡ S.faults source.old) }
    ensures long_steady { result ≡ Err ReadFault.TooLong
        → S.faults source.new ≡ S.faults source.old }
    ensures failed { result ≡ Err ReadFault.Failed
        → Rose (S.faults source.old) (S.faults source.new) }
{
    let mut bytes = Vec::new(alloc);
    let mut buffer = [0u8; BUFFER];
    while bytes.len() <= limit {
        let room = BUFFER.min(limit + 1 - bytes.len());
        let count = source.read(&mut buffer[..room])?;
        if count == 0 {
            return Ok(bytes);
        }
        bytes.extend_from_slice(&buffer[..count])?;
    }
    Err(ReadFault::TooLong)
}

/// Writes the whole piece. After `Failed` a prefix of it was written. It takes no memory.
pub fn write_all<K: Sink>(sink: &mut K, piece: &[u8]) -> Result<(), Failed>
    ensures ok { OnOk result (Appends (K.written sink.old) (K.written sink.new) piece.now) }
    ensures err { OnErr result (AppendsPart (K.written sink.old) (K.written sink.new) piece.now) }
    ensures cause { HasCause (K.faults sink.old) (K.faults sink.new) result }
{
    let mut rest = piece;
    while !rest.is_empty() {
        let count = sink.write(rest)?;
        rest = &rest[count..];
    }
    Ok(())
}
