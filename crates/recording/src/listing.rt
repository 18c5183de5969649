// The listing of a recording: the names line, and the line of a piece.
ghost use Rattle.std.specs.Prelude.{◌≡◌, ◌≤◌, length, if◌then◌else◌, nat_lt, IfOk, None, Ok, Err};
ghost use Rattle.frame.specs.Written.{written};
ghost use Rattle.recording.specs.Pieces.{piece_at};
ghost use Rattle.recording.specs.declared.status.Refusal.TheVariants.{ShortBuffer};
ghost use Rattle.recording.specs.Listing.{room, names_line, line_at, into, counted, filled};

use crate::reader::read;
use crate::status::Refusal;
use crate::writing::line_of;

/// A shorter line buffer is refused; no line is longer than this.
pub const LINE_ROOM: usize = 32;

// The names of a listing line's fields, as a line.
const NAMES: &[u8] = b"place bytes verdict command\n";

/// Writes the names line and answers its length.
// A buffer is lent, here and to `line`, since the interface is fixed and a library takes no heap.
pub fn names(out: &mut [u8]) -> Result<usize, Refusal>
    ensures count { result ≡ counted (into out.old (Ok names_line)) }
    ensures bytes { out.new ≡ filled out.old (into out.old (Ok names_line)) }
    ensures within { IfOk result (λ n. n ≤ room) }
{
    check_room(out)?;
    Ok(put(out, NAMES))
}

/// Writes the listing line of the piece that a place speaks of, and answers its length: 0 at the end.
// A number for "nothing left", and a buffer with its length beside it, since the interface is fixed.
#[tactic(auto, unfolding(frame::specs::Written::written))]
pub fn line(recording: &[u8], place: usize, out: &mut [u8]) -> Result<usize, Refusal>
    ensures count { result ≡ counted (into out.old (line_at recording.now place)) }
    ensures bytes { out.new ≡ filled out.old (into out.old (line_at recording.now place)) }
    ensures within { IfOk result (λ n. n ≤ room) }
    ensures end { result ≡ Ok 0 → (piece_at recording.now place).status ≡ Ok None }
{
    check_room(out)?;
    match read(recording, place)? {
        Some(reading) => Ok(put(out, line_of(reading).as_slice())),
        None => Ok(0),
    }
}

// Refuses a buffer that has no room for a line.
fn check_room(out: &[u8]) -> Result<(), Refusal>
    ensures { result ≡ (if nat_lt (length out.now) room then Err ShortBuffer else Ok tt) }
{
    if out.len() < LINE_ROOM {
        return Err(Refusal::ShortBuffer);
    }
    Ok(())
}

// Copies a text to the buffer's front and answers its length.
#[tactic(auto, unfolding(frame::specs::Written::written))]
fn put(out: &mut [u8], text: &[u8]) -> usize
    requires { length text.now ≤ length out.old }
    ensures length { result ≡ length text.now }
    ensures bytes { out.new ≡ written out.old 0 text.now }
{
    out[..text.len()].copy_from_slice(text);
    text.len()
}
