// Lists a recorded line, read from standard input, piece by piece.
#![tactic(auto)]

ghost use Rattle.std.specs.Prelude.{◌≡◌, ◌≤◌, length, take, IfOk, IfSome};
ghost use Rattle.std.specs.Io.KnownBytes.{Consumes};

mod listing;

use listing::list;
use recording::reader::LIMIT;
use std::io;
use std::io::{Read, Write};

// One byte more than a recording may have: whoever fills it has read enough to be refused.
const ROOM: usize = LIMIT + 1;

fn main(rt: HostRuntime) -> anyhow::Result<()> {
    let mut room = [0; ROOM]; // no `Vec`: reading asks for no heap, and so cannot run out of it
    let count = fill(&mut rt.stdin(), &mut room)?;
    let text = list(rt.alloc(), &room[..count])?;
    let mut out = rt.stdout();
    out.write_all(&text)?;
    out.flush()?;
    Ok(())
}

// Reads until the input ends or the buffer is full, and answers how many bytes were read: those it took, and no more.
// By hand and not by `read_to_end`: each read is offered all the room that is left, since an input that keeps its messages apart, as a packet pipe does, loses what a read has no room for.
fn fill<R: Read>(input: &mut R, buf: &mut [u8]) -> io::Result<usize>
    ensures within { IfOk result (λ n. n ≤ length buf.new) }
    ensures bytes { IfOk result (λ n. IfSome (R.remaining input.old) (λ bytes. take n buf.new ≡ take (length buf.new) bytes)) }
    ensures taken { IfOk result (λ n. Consumes (R.remaining input.old) (R.remaining input.new) (take n buf.new)) }
{
    let mut count = 0;
    while count < buf.len() {
        let got = input.read(&mut buf[count..])?;
        if got == 0 {
            break;
        }
        count += got;
    }
    Ok(count)
}
