// Puts a listing line together, field by field.
ghost use Rattle.std.specs.Prelude.{◌≡◌, ◌+◌, ◌<◌, ◌≤◌, ◌++◌, length};
ghost use Rattle.arrayvec.specs.ArrayVec.{array_vec_len};
ghost use Rattle.recording.specs.Listing.{field, command_text, line_of};
ghost use Rattle.recording.specs.Pieces.{limit, located};

use crate::listing::LINE_ROOM;
use crate::reader::Reading;
use arrayvec::ArrayVec;
use itoa::Buffer;

// The line of a piece. Not by `write!`, whose contract does not say when it succeeds: a line never fails.
#[tactic(auto, using(crate::proofs::Fields::five_digits), unfolding(crate::specs::Listing::line_of))]
pub(crate) fn line_of(piece: Reading<'_>) -> ArrayVec<u8, LINE_ROOM>
    requires start { piece.start ≤ limit }
    requires raw { length piece.raw.now ≤ limit }
    ensures value { result.items ≡ line_of piece.entry.label (located piece.entry) }
    ensures some { 0 < length result.items }
{
    let mut number = Buffer::new();
    let mut line = ArrayVec::new();
    put_field(&mut line, number.format(piece.start), b' ');
    put_field(&mut line, number.format(piece.raw.len()), b' ');
    put_field(&mut line, piece.label.as_str(), b' ');
    put_field(&mut line, command_text(&mut number, piece.command), b'\n');
    line
}

// A command in decimal, or a hyphen where there is none.
fn command_text(number: &mut Buffer, command: Option<u8>) -> &str
    ensures value { result.now ≡ command_text command }
    ensures short { length result.now ≤ 3 }
{
    match command {
        Some(command) => number.format(command),
        None => "-",
    }
}

// Puts a text and what stands after it at the end of a line.
fn put_field(line: &mut ArrayVec<u8, LINE_ROOM>, text: &str, after: u8)
    requires { array_vec_len line.old + length text.now < LINE_ROOM }
    ensures items { line.new.items ≡ line.old.items ++ field text.now after }
    ensures len { array_vec_len line.new ≡ array_vec_len line.old + length text.now + 1 }
{
    line.try_extend_from_slice(text.as_bytes()).unwrap();
    line.push(after);
}
