// Records of places and their values, and the search for a place's last one.
ghost use Rattle.std.specs.Prelude.{◌≡◌};
ghost use Rattle.std.specs.Option.{option_copied};
ghost use Rattle.store.specs.Logs.{latest_of};

use keyed::{Keyed, last_with};
use settings::table::Row;

/// A row always has room for this many records.
pub const RECORDS: usize = 16;

/// A place, by its number, and the value that it was given.
// The number is a plain one, not a `Place`: the row that a caller lends may hold anything, and so records of no place.
#[derive(Clone, Copy, PartialEq, Eq, Debug)]
pub struct Record {
    pub place: usize,
    pub value: Row,
}

// Records are searched by place.
impl Keyed for Record {
    type Key = usize;

    ghost key = { λ r. r.place };

    fn key(&self) -> usize {
        self.place
    }
}

// The last record of a place, or none.
pub(crate) fn latest(records: &[Record], place: usize) -> Option<&Record>
    ensures { option_copied result ≡ latest_of records.now place }
{
    let i = last_with(records, place)?;
    Some(&records[i])
}
