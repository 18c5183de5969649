// Writes a frame into the caller's buffer: flag, escaped content with its check bytes, flag.
ghost use Rattle.std.specs.Prelude.{◌≡◌, length, if◌then◌else◌, Some, None};
ghost use Rattle.fcs.specs.Sum.{check_bytes};
ghost use Rattle.frame.specs.Frames.{frame_of};
ghost use Rattle.frame.specs.Laws.{FrameLaws};
ghost use Rattle.frame.specs.Written.{fits_into, written};

use crate::FLAG;
use crate::cursor::Cursor;
use crate::escape::escaped_len;
use fcs::fcs16;

/// Writes the frame of a message, which is a content without its check bytes, at the buffer's start and answers its length.
/// Where it does not fit, it answers none and writes nothing: so it measures first.
// The buffer is the caller's, and the length of what it holds is answered beside it, since the library takes no heap.
#[tactic(auto, using(crate::proofs::Framing::frame_length, crate::proofs::Framing::frame_laws))]
pub fn write_frame(message: &[u8], out: &mut [u8]) -> Option<usize>
    ensures count { result ≡ (if fits_into (frame_of message.now) out.old then Some (length (frame_of message.now)) else None) }
    ensures bytes { out.new ≡ (if fits_into (frame_of message.now) out.old then written out.old 0 (frame_of message.now) else out.old) }
    ensures laws { FrameLaws }
{
    let left = out
        .len()
        .checked_sub(2)? // the two flags
        .checked_sub(escaped_len(message))?;
    let check = check_bytes(message); // only for a message that fits: the sum costs more than the measuring
    left.checked_sub(escaped_len(&check))?;

    let mut cursor = Cursor { out, at: 0 };
    cursor.put(&[FLAG]);
    cursor.put_escaped(message);
    cursor.put_escaped(&check);
    cursor.put(&[FLAG]); // only this flag has the receiver judge what came before it
    Some(cursor.at)
}

// The two check bytes of a message, the low byte first.
fn check_bytes(message: &[u8]) -> [u8; 2]
    ensures { result ≡ check_bytes message.now }
{
    fcs16(message).to_le_bytes()
}
