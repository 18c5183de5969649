// A frame's content as it is collected: never more than 125 bytes, by its type.
ghost use Rattle.std.specs.Prelude.{◌≡◌, ◌<◌, ◌≤◌, ◌↔◌, [], ◌∷◌, ◌++◌, length, take, IsOk, OnOk, OnErr, slice_set};
ghost use Rattle.frame.specs.Verdicts.{longest};

use crate::LONGEST;
use std::fmt;

// The content holds 125 bytes and takes no more.
#[derive(Clone, Copy, Debug)]
pub(crate) struct Full;

// The memory of a content. What lies past the content's count is of no meaning.
#[derive(Clone, Copy)]
struct Row {
    bytes: [u8; LONGEST],
}

impl Row {
    // Sets one byte. It also tells that the row is whole, which is not known of an array inside two structs.
    fn put(&mut self, at: usize, byte: u8)
        requires { at < longest }
        ensures set { self.new.bytes ≡ slice_set self.old.bytes at byte }
        ensures whole { length self.old.bytes ≡ longest }
    {
        self.bytes[at] = byte;
    }

    // The first `count` bytes.
    fn front(&self, count: usize) -> &[u8]
        requires { count ≤ longest }
        ensures value { result.now ≡ take count self.now.bytes }
        ensures len { length result.now ≡ count }
    {
        &self.bytes[..count]
    }
}

// The first `count` bytes of the row.
// It is `Copy`, since a receiver's callers were promised that: so no `ArrayVec`, which is not, and no `impl Model`, which would have to give back the bytes past the count.
#[derive(Clone, Copy)]
pub(crate) struct Content {
    count: usize,
    row: Row,
    ghost few: { count ≤ longest },
}

impl Content {
    ghost use Rattle.frame.specs.Contents.{bytes_of};

    // A content of no bytes.
    pub(crate) fn new() -> Content
        ensures { bytes_of result ≡ [] }
    {
        Content {
            count: 0,
            row: Row {
                bytes: [0; LONGEST],
            },
        }
    }

    // Adds one byte, unless 125 are held already.
    pub(crate) fn push(&mut self, byte: u8) -> Result<(), Full>
        ensures room { IsOk result ↔ (length (bytes_of self.old) < longest) }
        ensures ok { OnOk result (bytes_of self.new ≡ bytes_of self.old ++ byte ∷ []) }
        ensures err { OnErr result (bytes_of self.new ≡ bytes_of self.old) }
    {
        if self.bytes().len() == LONGEST {
            return Err(Full);
        }
        self.row.put(self.count, byte);
        self.count += 1;
        Ok(())
    }

    // Makes it a content of no bytes again.
    pub(crate) fn clear(&mut self)
        ensures { bytes_of self.new ≡ [] }
    {
        self.count = 0;
    }

    // The bytes that it holds: as many as its count, since that never passes the row's length.
    pub(crate) fn bytes(&self) -> &[u8]
        ensures value { result.now ≡ bytes_of self.now }
        ensures len { length result.now ≡ self.now.count }
    {
        self.row.front(self.count)
    }
}

// By hand: the row still has bytes of earlier pieces past the count, and nothing is to be carried over a flag.
impl fmt::Debug for Content {
    ghost use Rattle.std.specs.Prelude.{Some, decimal};
    ghost use Rattle.std.specs.Fmt.{debug_list};
    ghost use Rattle.frame.specs.Contents.{bytes_of};

    ghost debug_output = { λ content. debug_list (λ byte. Some (decimal byte)) (bytes_of content) };

    fn fmt<W: fmt::Write>(&self, f: &mut fmt::Formatter<W>) -> fmt::Result {
        fmt::Debug::fmt(&self.bytes(), f)
    }
}
