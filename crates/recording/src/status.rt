// Why a call on a recording is refused, and what a run of bytes in it is; each has a number, a refusal a text, and a label a name.
ghost use Rattle.std.specs.Prelude.{◌≡◌, ◌≤◌, length};
ghost use Rattle.recording.specs.Statuses.{label_name};

use frame::verdict::Verdict;
use std::error::Error;
use std::fmt;

/// Why a call was refused. Nothing is changed then.
#[derive(Clone, Copy, PartialEq, Eq, Debug)]
pub enum Refusal {
    /// The line buffer has fewer than 32 bytes.
    ShortBuffer,
    /// The recording has more than 65,536 bytes.
    LongRecording,
    /// The place lies beyond the recording's end.
    PlaceBeyond,
}

/// What a run of bytes in a recording is.
#[derive(Clone, Copy, PartialEq, Eq, Debug)]
pub enum Label {
    /// No flag comes after it.
    Open,
    /// It begins the recording, with no flag before it.
    Stray,
    /// It stands between two flags, with this verdict.
    Closed(Verdict),
}

impl From<Refusal> for u16 {
    ghost use Rattle.std.specs.Prelude.{◌≡◌};
    ghost use Rattle.recording.specs.Statuses.{refusal_number};

    ghost from_gives = { λ refusal number. number ≡ refusal_number refusal };

    fn from(refusal: Refusal) -> u16 {
        match refusal {
            Refusal::ShortBuffer => 201,
            Refusal::LongRecording => 202,
            Refusal::PlaceBeyond => 203,
        }
    }
}

impl fmt::Display for Refusal {
    ghost use Rattle.std.specs.Prelude.{Some};
    ghost use Rattle.recording.specs.Statuses.{refusal_text};

    ghost output = { λ refusal. Some (refusal_text refusal) };

    fn fmt<W: fmt::Write>(&self, f: &mut fmt::Formatter<W>) -> fmt::Result {
        write!(f, "refused {}", u16::from(*self))
    }
}

impl Error for Refusal {}

impl From<Label> for u16 {
    ghost use Rattle.std.specs.Prelude.{◌≡◌};
    ghost use Rattle.recording.specs.Statuses.{label_number};

    ghost from_gives = { λ label number. number ≡ label_number label };

    fn from(label: Label) -> u16 {
        match label {
            Label::Closed(Verdict::Empty) => 1,
            Label::Closed(Verdict::Escape) => 2,
            Label::Closed(Verdict::Long) => 3,
            Label::Closed(Verdict::Short) => 4,
            Label::Closed(Verdict::Check) => 5,
            Label::Closed(Verdict::Good) => 6,
            Label::Open => 7,
            Label::Stray => 8,
        }
    }
}

impl Label {
    // The word for it in a listing. A `Display` would not do there: its `fmt` may fail, and a listing line may not.
    pub(crate) fn as_str(self) -> &'static str
        ensures name { result.now ≡ label_name self }
        ensures short { length result.now ≤ 6 }
    {
        match self {
            Label::Closed(Verdict::Empty) => "empty",
            Label::Closed(Verdict::Escape) => "escape",
            Label::Closed(Verdict::Long) => "long",
            Label::Closed(Verdict::Short) => "short",
            Label::Closed(Verdict::Check) => "check",
            Label::Closed(Verdict::Good) => "good",
            Label::Open => "open",
            Label::Stray => "stray",
        }
    }
}
