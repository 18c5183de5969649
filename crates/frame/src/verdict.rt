// The verdict on a piece, the run of bytes between two flags.

/// What is to be said of a piece, in the order in which they are tried: the first that fits is the verdict.
// No `Result` with five errors: the listing, the numbers and the laws treat good as one of six.
#[derive(Clone, Copy, PartialEq, Eq, Debug)]
pub enum Verdict {
    /// No byte at all.
    Empty,
    /// A bad escape anywhere in the piece.
    Escape,
    /// A content of more than 125 bytes.
    Long,
    /// A content of fewer than 5 bytes.
    Short,
    /// The check sequence is not that of the content.
    Check,
    /// A content to be read.
    Good,
}
