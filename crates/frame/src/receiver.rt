// The receiving end of a line: waits for a first flag, then collects piece after piece.
ghost use Rattle.std.specs.Prelude.{◌≡◌, ℕ, List, []};
ghost use Rattle.frame.specs.Laws.{ReceiverLaws};
ghost use Rattle.frame.specs.Lines.{Line, waiting, since, hear, verdict_at, hearing, silent, hear_on, closes, content_kept, Hears};
ghost use Rattle.frame.specs.Verdicts.{content_of, verdict_of};
ghost use Rattle.frame.specs.declared.verdict.Verdict.TheVariants.{Good};

use crate::FLAG;
use crate::collector::Collector;
use crate::verdict::Verdict;

/// Waits for a first flag, and then collects the piece since the last one.
// Clauses see it through `hearing`: it is `Copy` and holds a content, which cannot have an `impl Model` then (content.rt).
// No `PartialEq`, for the reason that stands at the collector.
#[derive(Clone, Copy, Debug)]
pub struct Receiver {
    // The piece since the last flag; none while no flag came yet.
    piece: Option<Collector>,
}

impl Receiver {
    /// A receiver that waits for a first flag.
    #[tactic(auto, using(crate::proofs::Following::receiver_laws))]
    pub fn new() -> Receiver
        ensures hears { hearing result ≡ silent }
        ensures line { Hears waiting result }
        ensures laws { ReceiverLaws }
    {
        Receiver { piece: None }
    }

    /// Takes one byte from the line. A flag ends whatever was collected and begins a new piece.
    pub fn put(&mut self, byte: u8)
        ensures hears { hearing self.new ≡ hear_on (hearing self.old) byte }
        ensures line { (line : Line) → Hears line self.old → Hears (hear line byte) self.new }
    {
        // The piece is asked before the byte: once there is one it stays, so a loop over bytes need not ask at each.
        match &mut self.piece {
            Some(piece) if byte == FLAG => piece.clear(), // in place: a new one would be written whole at each flag
            Some(piece) => piece.put(byte),
            None if byte == FLAG => self.piece = Some(Collector::new()),
            None => {}
        }
    }

    /// The verdict on the piece that a flag would close now; none while it waits for the first flag.
    pub fn closing(&self) -> Option<Verdict>
        ensures hears { result ≡ closes (hearing self.now) }
        ensures line { (line : Line) → Hears line self.now → result ≡ verdict_at line }
    {
        self.piece.as_ref().map(|piece| piece.verdict())
    }

    /// The content of the piece, as far as it was collected; no byte while it waits.
    pub fn content(&self) -> &[u8]
        ensures hears { result.now ≡ content_kept (hearing self.now) }
        ensures silent { Hears waiting self.now → result.now ≡ [] }
        ensures line { (raw : List ℕ) → Hears (since raw) self.now → verdict_of raw ≡ Good → result.now ≡ content_of raw }
    {
        self.piece.as_ref().map_or(&[], |piece| piece.content())
    }
}
