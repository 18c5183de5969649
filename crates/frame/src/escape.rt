// Escapes: a byte as it goes over the line, and the byte that an escape stands for.
ghost use Rattle.std.specs.Prelude.{◌≡◌, length, [], ◌∷◌, MatchOption};
ghost use Rattle.frame.specs.Escapes.{escape_byte, escaped_byte, escaped, stands_for};

use crate::FLAG;

// Begins the two bytes that stand for a flag or for this byte itself inside a frame.
pub(crate) const ESCAPE: u8 = 0x7d;

// What follows the escape byte where the two stand for a flag.
const ESCAPED_FLAG: u8 = 0x5e;

// What follows the escape byte where the two stand for an escape byte.
const ESCAPED_ESCAPE: u8 = 0x5d;

// What follows the escape byte where the two stand for this byte; none where it goes over the line as it is.
pub(crate) fn escape_of(byte: u8) -> Option<u8>
    ensures { MatchOption result (escaped_byte byte ≡ byte ∷ []) (λ second. escaped_byte byte ≡ escape_byte ∷ second ∷ []) }
{
    match byte {
        FLAG => Some(ESCAPED_FLAG),
        ESCAPE => Some(ESCAPED_ESCAPE),
        _ => None,
    }
}

// How many bytes these are on the line.
pub(crate) fn escaped_len(bytes: &[u8]) -> usize
    ensures { result ≡ length (escaped bytes.now) }
{
    bytes.iter().map(|byte| width(*byte)).sum()
}

// How many bytes a byte is on the line.
fn width(byte: u8) -> usize
    ensures { result ≡ length (escaped_byte byte) }
{
    match escape_of(byte) {
        Some(_) => 2,
        None => 1,
    }
}

// The byte that an escape byte and this one stand for; none where the escape is bad.
pub(crate) fn stands_for(byte: u8) -> Option<u8>
    ensures { result ≡ stands_for byte }
{
    match byte {
        ESCAPED_FLAG => Some(FLAG),
        ESCAPED_ESCAPE => Some(ESCAPE),
        _ => None,
    }
}
