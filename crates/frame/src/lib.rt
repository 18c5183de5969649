// Frames on the line: flags, escapes, the check sequence, and the verdict on what stands between two flags.
#![tactic(auto)]

pub mod collector;
mod content;
mod cursor;
mod escape;
pub mod receiver;
pub mod verdict;
pub mod writer;

/// Opens and closes every frame, and stands nowhere inside one.
pub const FLAG: u8 = 0x7e;

// A content has at most this many bytes.
pub(crate) const LONGEST: usize = 125;

// A content has at least this many bytes: command, length, flags and the two check bytes.
pub(crate) const SHORTEST: usize = 5;
