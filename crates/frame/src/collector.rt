// Collects a piece byte by byte, undoing its escapes, and judges it.
ghost use Rattle.std.specs.Prelude.{◌≡◌, ℕ, ◌≤◌, List, [], ◌∷◌, ◌++◌, length, ◌==◌};
ghost use Rattle.frame.specs.Collected.{kept, kept_by, nothing, added, resolved, collect, judged, Collected};
ghost use Rattle.frame.specs.Contents.{bytes_of};
ghost use Rattle.frame.specs.Escapes.{stands_for};
ghost use Rattle.frame.specs.Verdicts.{content_of, due, carried, verdict_of};
ghost use Rattle.frame.specs.declared.collector.Escapes.TheVariants.{Whole};
ghost use Rattle.frame.specs.declared.verdict.Verdict.TheVariants.{Good};

use crate::SHORTEST;
use crate::content::Content;
use crate::escape::{ESCAPE, stands_for};
use crate::verdict::Verdict;
use fcs::fcs16;

// How the escapes stand in the bytes so far.
#[derive(Clone, Copy, Debug)]
enum Escapes {
    // Each is right.
    Whole,
    // The last byte began one.
    Half,
    // One was bad; nothing mends that before the next flag.
    Bad,
}

/// The bytes of one piece, as far as they came.
// Clauses see it through `kept_by`: it is `Copy` and holds a content, which cannot have an `impl Model` then (content.rt).
// No `PartialEq`: the bytes past a content's count are of no meaning.
#[derive(Clone, Copy, Debug)]
pub struct Collector {
    content: Content,
    // More content came than is kept. It is no `Option`: there is a content either way, and under each of the three escapes.
    over: bool,
    escapes: Escapes,
}

impl Collector {
    /// A piece of which no byte has come.
    #[tactic(auto, unfolding(crate::specs::Collected::kept_of))]
    pub fn new() -> Collector
        ensures keeps { kept_by result ≡ nothing }
        ensures piece { Collected [] result }
    {
        Collector {
            content: Content::new(),
            over: false,
            escapes: Escapes::Whole,
        }
    }

    /// Drops all that was collected: the next byte is the first of a piece.
    #[tactic(auto, unfolding(crate::specs::Collected::kept_of))]
    pub fn clear(&mut self)
        ensures keeps { kept_by self.new ≡ nothing }
        ensures piece { Collected [] self.new }
    {
        self.content.clear();
        self.over = false;
        self.escapes = Escapes::Whole; // a half-read escape is not carried over a flag
    }

    /// Takes the next byte of the piece.
    #[tactic(auto, unfolding(crate::specs::Collected::kept_of))]
    pub fn put(&mut self, byte: u8)
        ensures keeps { kept_by self.new ≡ collect (kept_by self.old) byte }
        ensures piece { (raw : List ℕ) → Collected raw self.old → Collected (raw ++ byte ∷ []) self.new }
    {
        match self.escapes {
            Escapes::Whole => {
                if byte == ESCAPE {
                    self.escapes = Escapes::Half;
                } else {
                    self.add(byte);
                }
            }
            Escapes::Half => self.resolve(byte),
            Escapes::Bad => {}
        }
    }

    // Takes the second byte of an escape.
    fn resolve(&mut self, byte: u8)
        ensures { kept_by self.new ≡ resolved (kept_by self.old) (stands_for byte) }
    {
        match stands_for(byte) {
            Some(byte) => self.add(byte),
            None => self.escapes = Escapes::Bad,
        }
    }

    // Adds a byte to the content, or notes that the content is too long. Either way no escape is open.
    fn add(&mut self, byte: u8)
        ensures { kept_by self.new ≡ added (kept_by self.old) byte }
    {
        self.escapes = Escapes::Whole;
        if self.content.push(byte).is_err() {
            self.over = true;
        }
    }

    /// The verdict, should the piece end here.
    #[tactic(auto, using(crate::proofs::Pieces::piece_verdict))]
    pub fn verdict(&self) -> Verdict
        ensures keeps { result ≡ judged (kept_by self.now) }
        ensures piece { (raw : List ℕ) → Collected raw self.now → result ≡ verdict_of raw }
    {
        match self.escapes {
            Escapes::Half | Escapes::Bad => Verdict::Escape,
            Escapes::Whole => self.verdict_on_content(),
        }
    }

    // The verdict where every escape is right.
    fn verdict_on_content(&self) -> Verdict
        ensures { result ≡ judged (kept (bytes_of self.now.content) self.now.over Whole) }
    {
        let content = self.content();
        if content.is_empty() {
            Verdict::Empty
        } else if self.over {
            Verdict::Long
        } else if content.len() < SHORTEST {
            Verdict::Short
        } else if carries_its_check(content) {
            Verdict::Good
        } else {
            Verdict::Check
        }
    }

    /// The content, as far as it was collected.
    #[tactic(auto, using(crate::proofs::Pieces::piece_content))]
    pub fn content(&self) -> &[u8]
        ensures keeps { result.now ≡ (kept_by self.now).content }
        ensures piece { (raw : List ℕ) → Collected raw self.now → verdict_of raw ≡ Good → result.now ≡ content_of raw }
    {
        self.content.bytes()
    }
}

// Whether the last two bytes, the low byte first, are the check sequence of those before them.
fn carries_its_check(content: &[u8]) -> bool
    ensures { 2 ≤ length content.now → result ≡ (due content.now == carried content.now) }
{
    match content {
        [message @ .., low, high] => fcs16(message) == u16::from_le_bytes([*low, *high]),
        _ => false,
    }
}
