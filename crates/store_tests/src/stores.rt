// The log store beside the slot store: far past its row, wiped at every fill level, and on a row that was used before.
use settings::place::Place;
use settings::table::{PLACES, WIDEST};
use std::process::Abort;
use std::test::Fail;
use store::interface::Store;
use store::log::LogStore;
use store::operation::{Operation, agree};
use store::records::{RECORDS, Record};
use store::slot::SlotStore;

// What a row held before a log was made on it.
const OLD: Record = Record {
    place: 3,
    value: [0x55; WIDEST],
};

// The place with this number; a test fails where there is none.
fn place(number: usize) -> Result<Place, Fail> {
    Place::new(number).ok_or_else(|| Fail::new("no place"))
}

// Whether a store holds a value of these bytes in a place, and leaves the rest of the row as it was.
fn holds<S: Store>(store: &S, place: Place, byte: u8) -> bool {
    let mut row = [0xee; WIDEST];
    let mut expected = [0xee; WIDEST];
    let Some(front) = expected.get_mut(..place.width()) else {
        return false;
    };
    front.fill(byte);
    store.read(place, &mut row) == Some(place.width()) && row == expected
}

// Whether a store holds nothing in a place, and leaves the row as it was.
fn lacks<S: Store>(store: &S, place: Place) -> bool {
    let mut row = [0xee; WIDEST];
    store.read(place, &mut row).is_none() && row == [0xee; WIDEST]
}

// Both stores, side by side.
#[derive(Drop)]
struct Both<'a> {
    slot: SlotStore,
    log: LogStore<'a>,
}

impl Both<'_> {
    // Gives both an operation, and answers whether they answered it alike.
    fn agree(&mut self, operation: Operation) -> bool {
        agree(&mut self.slot, &mut self.log, &[operation])
    }

    // Whether both answer a read of every place alike.
    fn are_alike(&mut self) -> bool {
        (0..PLACES)
            .filter_map(Place::new)
            .all(|place| self.agree(Operation::Read(place)))
    }

    // Writes as often as said, each time another value, to one place or else to each in turn, and compares after every write.
    fn write(&mut self, rt: &impl Abort, one: Option<usize>, times: u8) -> Result<(), Fail> {
        for byte in 0..times {
            let place = place(one.unwrap_or(usize::from(byte) % PLACES))?;
            assert!(rt; self.agree(Operation::Write(place, [byte; WIDEST])));
            assert!(rt; holds(&self.slot, place, byte) && holds(&self.log, place, byte));
            assert!(rt; self.are_alike());
        }
        Ok(())
    }
}

// Fills both stores, wipes them, and fills them again.
fn fill_wipe_fill(rt: &impl Abort, one: Option<usize>, times: u8) -> Result<(), Fail> {
    let mut row = [OLD; RECORDS];
    let mut both = Both {
        slot: SlotStore::new(),
        log: LogStore::new(&mut row),
    };
    both.write(rt, one, times)?;
    assert!(rt; both.agree(Operation::Wipe) && both.are_alike());
    both.write(rt, one, times)
}

#[test]
fn wiped_at_every_fill_level(rt: HostRuntime) -> Result<(), Fail> {
    for times in 0..40 {
        for number in 0..PLACES {
            fill_wipe_fill(&rt, Some(number), times)?;
        }
        fill_wipe_fill(&rt, None, times)?;
    }
    Ok(())
}

#[test]
fn far_past_the_row(rt: HostRuntime) -> Result<(), Fail> {
    for number in 0..PLACES {
        fill_wipe_fill(&rt, Some(number), 250)?;
    }
    fill_wipe_fill(&rt, None, 250)
}

#[test]
fn a_store_starts_empty(rt: HostRuntime) -> Result<(), Fail> {
    let mut row = [OLD; RECORDS];
    let place = place(OLD.place)?;
    assert!(rt; lacks(&SlotStore::new(), place));
    let mut log = LogStore::new(&mut row);
    assert!(rt; lacks(&log, place));
    log.write(place, &[1; WIDEST]);
    assert!(rt; holds(&log, place, 1));
    assert!(rt;
        lacks(&LogStore::new(&mut row), place),
        "a second log on the same row"
    );
    let written = Record {
        place: OLD.place,
        value: [1; WIDEST],
    };
    assert_eq!(rt; row[0], written, "the row is the caller's again");
    Ok(())
}
