// The piece call: the run of bytes that a place in a recording speaks of.
ghost use Rattle.std.specs.Prelude.{◌≡◌, ◌+◌, ◌<◌, ◌≤◌, length, Some, Ok, IfOk, IfSome, OnOk};
ghost use Rattle.std.specs.List.{before_first, position};
ghost use Rattle.frame.specs.Collected.{Collected};
ghost use Rattle.recording.specs.Laws.{PiecesCoverTheRecording, NoneOnlyAtTheEnd};
ghost use Rattle.recording.specs.Pieces.{start_at, is_flag, label_of, command_of, command_in, piece_at, answered};
ghost use Rattle.recording.specs.Statuses.{status_number};

use crate::status::{Label, Refusal};
use frame::FLAG;
use frame::collector::Collector;
use frame::verdict::Verdict;

/// A longer recording is refused.
pub const LIMIT: usize = 65_536;

/// A piece that a place in a recording speaks of.
#[derive(Clone, Copy, PartialEq, Eq, Debug)]
pub struct Reading<'a> {
    pub label: Label,
    /// Where the run begins.
    pub start: usize,
    /// The run, without the flag that closes it.
    pub raw: &'a [u8],
    /// The place to go on.
    pub next: usize,
    /// The first byte of a good content.
    // It stands apart from the label, which has a number and a name without any byte of what was judged.
    pub command: Option<u8>,
}

/// Answers the number of what the place speaks of, the raw piece, and the place to go on: past the closing flag, or the recording's end.
// A tuple with a number, and a recording with a place beside it, since the calls on a recording are a fixed interface.
pub fn piece(recording: &[u8], place: usize) -> (u16, &[u8], usize)
    ensures status { result.0 ≡ status_number (piece_at recording.now place).status }
    ensures raw { result.1.now ≡ (piece_at recording.now place).raw }
    ensures next { result.2 ≡ (piece_at recording.now place).next }
    ensures covers { PiecesCoverTheRecording }
    ensures none { NoneOnlyAtTheEnd }
{
    match read(recording, place) {
        Ok(Some(reading)) => (u16::from(reading.label), reading.raw, reading.next),
        Ok(None) => (0, &[], recording.len()),
        Err(refusal) => (u16::from(refusal), &[], place),
    }
}

/// Reads at a place: none at the recording's end. The checks of the recording's length and of the place come first, in this order.
#[tactic(auto, unfolding(crate::specs::Pieces::piece_at, crate::specs::Pieces::run_from))]
pub fn read(recording: &[u8], place: usize) -> Result<Option<Reading<'_>>, Refusal>
    ensures answer { answered recording.now place result ≡ piece_at recording.now place }
    ensures covers { PiecesCoverTheRecording }
    ensures none { NoneOnlyAtTheEnd }

    // So a caller who goes on at `next` comes to the recording's end.
    ensures short { OnOk result (length recording.now ≤ LIMIT) }
    ensures onward { IfOk result (λ found. IfSome found (λ reading. place < reading.next)) }
    ensures within { IfOk result (λ found. IfSome found (λ reading.
        (reading.start + length reading.raw.now ≤ reading.next) × (reading.next ≤ length recording.now))) }
{
    if recording.len() > LIMIT {
        return Err(Refusal::LongRecording);
    }
    if place > recording.len() {
        return Err(Refusal::PlaceBeyond);
    }
    let start = start_at(recording, place);
    if start == recording.len() {
        return Ok(None);
    }
    let raw = up_to_flag(&recording[start..]);
    let end = start + raw.len();
    let (label, command) = judge(recording.len(), start, raw);
    Ok(Some(Reading {
        label,
        start,
        raw,
        next: (end + 1).min(recording.len()),
        command,
    }))
}

// The label of a run that begins at `start`, in a recording of this length; and its command, if it is good.
fn judge(whole: usize, start: usize, raw: &[u8]) -> (Label, Option<u8>)
    requires { start + length raw.now ≤ whole }
    ensures label { result.0 ≡ label_of whole start raw.now }
    ensures command { result.1 ≡ command_in (Ok (Some (label_of whole start raw.now))) raw.now }
{
    if start + raw.len() == whole {
        (Label::Open, None)
    } else if start == 0 {
        (Label::Stray, None)
    } else {
        let collector = collect(raw);
        let verdict = collector.verdict();
        (
            Label::Closed(verdict),
            command_of(verdict, collector.content()),
        )
    }
}

fn command_of(verdict: Verdict, content: &[u8]) -> Option<u8>
    ensures { result ≡ command_of verdict content.now }
{
    match verdict {
        Verdict::Good => content.first().copied(),
        _ => None,
    }
}

// The collector after all bytes of a piece.
fn collect(raw: &[u8]) -> Collector
    ensures { Collected raw.now result }
{
    let mut collector = Collector::new();
    for byte in raw {
        collector.put(*byte);
    }
    collector
}

// Where the run begins that a place speaks of: a leading flag is passed over at place 0.
// The recording and the place travel on from `read`, which takes them as `piece` does.
fn start_at(recording: &[u8], place: usize) -> usize
    requires { place ≤ length recording.now }
    ensures value { result ≡ start_at recording.now place }
    ensures within { result ≤ length recording.now }
{
    match recording {
        [FLAG, ..] if place == 0 => 1,
        _ => place,
    }
}

// The bytes before the first flag, or all of them where there is none.
fn up_to_flag(bytes: &[u8]) -> &[u8]
    ensures { result.now ≡ before_first is_flag bytes.now }
{
    match flag_in(bytes) {
        Some(count) => &bytes[..count],
        None => bytes,
    }
}

// Where the first flag stands.
fn flag_in(bytes: &[u8]) -> Option<usize>
    ensures { result ≡ position is_flag bytes.now }
{
    bytes.iter().position(|byte| *byte == FLAG)
}
