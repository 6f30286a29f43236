//! A context's bytes as the value of a header.

ghost use Rattle.std.specs.Prelude.{◌≡◌};
ghost use Rattle.header_calls.specs.Writing.{WritesHeader};

use byte_forward::ByteRefusal;
use byte_frames::check_bytes;
use header_text::{text_len, write_text};

/// Writes the value of a header that carries a context at the beginning of `room`, and answers how
/// many letters it has: `DATA.CHECK` of the context's bytes as they are, in whichever form. The
/// rest of `room` stays. It takes no memory. [`ByteRefusal`] says when nothing is written.
pub fn to_header_into(context: &[u8], room: &mut [u8]) -> Result<usize, ByteRefusal>
    ensures { WritesHeader context.now room.old room.new result }
{
    if let Err(fault) = check_bytes(context) {
        return Err(ByteRefusal::Fault {
            context: 0,
            offset: fault.offset,
            code: fault.code,
        });
    }
    let size = text_len(context.len());
    if room.len() < size {
        return Err(ByteRefusal::Room { size });
    }
    write_text(context, &mut room[..size]);
    Ok(size)
}
