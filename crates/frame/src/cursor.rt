// A place in the caller's buffer, which moves on with each byte that is written.
ghost use Rattle.std.specs.Prelude.{◌+◌, ◌≤◌, length};
ghost use Rattle.frame.specs.Cursors.{HasRoom, Puts};
ghost use Rattle.frame.specs.Escapes.{escaped_byte, escaped};

use crate::escape::{ESCAPE, escape_of};

// No writer of the library's: its contract does not say which bytes come to stand in a slice.
#[derive(Drop)]
pub(crate) struct Cursor<'a> {
    pub(crate) out: &'a mut [u8],
    pub(crate) at: usize,
}

impl Cursor<'_> {
    // Writes bytes as they are.
    #[tactic(auto, using(crate::proofs::Writes::overwritten))]
    pub(crate) fn put(&mut self, bytes: &[u8])
        requires { HasRoom self.old bytes.now }
        ensures { Puts self.old self.new bytes.now }
    {
        let end = self.at + bytes.len();
        self.out[self.at..end].copy_from_slice(bytes);
        self.at = end;
    }

    // Writes bytes, escaped.
    pub(crate) fn put_escaped(&mut self, bytes: &[u8])
        requires { HasRoom self.old (escaped bytes.now) }
        ensures { Puts self.old self.new (escaped bytes.now) }
    {
        for byte in bytes {
            self.put_byte(*byte);
        }
    }

    // Writes one byte, escaped.
    fn put_byte(&mut self, byte: u8)
        requires { HasRoom self.old (escaped_byte byte) }
        ensures { Puts self.old self.new (escaped_byte byte) }
    {
        match escape_of(byte) {
            Some(second) => self.put(&[ESCAPE, second]),
            None => self.put(&[byte]),
        }
    }
}
