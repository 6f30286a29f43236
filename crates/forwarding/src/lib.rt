//! An example of the libraries: a proxy that merges the contexts of two branches and sends the
//! result on, at most as many bytes as its buffer has. It reads either form of bytes and sends one,
//! knows no definition and no type, and takes no memory.
//!
//! ```rust
//! let size = forward(&ours, &theirs, &mut buffer)?;
//! channel.send(&buffer[..size]);
//! ```
#![tactic(auto)]

ghost use Rattle.std.specs.Prelude.{◌<◌, length};
ghost use Rattle.forwarding.specs.Forwards.{Forwards};

use byte_forward::{ByteRefusal, forward_bytes};
use wire_bytes::Form;

/// Writes what is sent on at the beginning of the buffer, and answers how many bytes that is: the
/// merge of two received contexts, in form one, cut to as many bytes as the buffer has. It can fail
/// only by what was received: the refusal is the first fault of the first input that is no context,
/// and the buffer is as it was.
pub fn forward(first: &[u8], second: &[u8], buffer: &mut [u8]) -> Result<usize, ByteRefusal>
    requires { 0 < length buffer.old }
    ensures { Forwards first.now second.now buffer.old buffer.new result }
{
    let budget = buffer.len() as u64;
    forward_bytes(Form::One, first, second, budget, buffer)
}
