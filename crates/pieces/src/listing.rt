// The whole listing of a recording, as one text.
ghost use Rattle.std.specs.Prelude.{◌≡◌, IfOk};
ghost use Rattle.pieces.specs.Cases.{WorkedListing};
ghost use Rattle.pieces.specs.Listing.{listing_of};

use recording::listing::{LINE_ROOM, line, names};
use recording::reader::read;
use std::alloc::{AllocError, Global};

/// The names line and a line for each piece; or one line that says why the recording is refused.
#[tactic(auto, using(crate::proofs::Worked::worked_listing, crate::proofs::Lists::refused_listing))]
pub fn list(alloc: Global, recording: &[u8]) -> Result<Vec<u8>, AllocError>
    ensures text { IfOk result (λ v. v.items ≡ listing_of recording.now) }
    ensures worked { WorkedListing }
{
    if let Err(refusal) = read(recording, 0) {
        return Ok(format!(in alloc; "{refusal}\n")?.into_bytes());
    }
    let mut row = [0; LINE_ROOM]; // lent to the calls, which take no heap; it has room for any line, so that none is refused
    let mut text = Vec::new(alloc);
    let count = names(&mut row).unwrap();
    text.extend_from_slice(&row[..count])?;
    let mut place = 0;
    while let Ok(Some(reading)) = read(recording, place) {
        let count = line(recording, place, &mut row).unwrap();
        text.extend_from_slice(&row[..count])?;
        place = reading.next;
    }
    Ok(text)
}
