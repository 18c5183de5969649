// The log store: records in a row that the caller lends, of which a place's last one has its value.
ghost use Rattle.std.specs.Prelude.{◌≡◌, ◌<◌, ◌≤◌, [], ◌∷◌, ◌++◌, length};
ghost use Rattle.store.specs.declared.records.TheConstants.{RECORDS};
ghost use Rattle.store.specs.Places.{written, wiped};

use crate::interface::Store;
use crate::records::{RECORDS, Record, latest};
use crate::rows::lay;
use settings::place::Place;
use settings::table::{PLACES, Row};

/// The values that a log of records has, by each place's last one.
// A row with a count beside it, since the caller lends the row, always of 16 records, and has it back.
// No `impl Model`: clauses say what stands in the lent row, also past the records in use.
#[derive(Drop)]
pub struct LogStore<'a> {
    row: &'a mut [Record; RECORDS],
    // How many records are in use, from the row's start on.
    count: usize,
    ghost whole: { length row.now ≡ RECORDS },
    ghost within: { count ≤ RECORDS },
}

impl<'a> LogStore<'a> {
    ghost use Rattle.store.specs.Laws.{LogLaws};
    ghost use Rattle.store.specs.Logs.{capacity, records_of, with_room, log_places, ChangesTo};

    /// An empty log on this row, whatever the row holds. The caller has the row back when the store is gone.
    #[tactic(auto, using(crate::proofs::Logged::empty_log, crate::proofs::Logged::log_laws))]
    pub fn new(row: &'a mut [Record; RECORDS]) -> LogStore<'a>
        ensures places { log_places result ≡ wiped }
        ensures records { records_of result ≡ [] }
        ensures row { result.row.now ≡ row.old }
        ensures lent { result.row.ghost_name ≡ row.entry.ghost_name }
        ensures laws { LogLaws }
    {
        LogStore { row, count: 0 }
    }

    // The records in use.
    fn records(&self) -> &[Record]
        ensures { result.now ≡ records_of self.now }
    {
        &self.row[..self.count]
    }

    // Adds a record after those in use.
    fn push(&mut self, added: Record)
        requires { length (records_of self.old) < capacity }
        ensures { ChangesTo self.old self.new (records_of self.old ++ added ∷ []) }
    {
        self.row[self.count] = added;
        self.count += 1;
    }

    // Makes room for one record more: a full log gives up all but each place's last record, in the order of the places.
    #[tactic(auto, using(crate::proofs::Changes::room))]
    fn make_room(&mut self)
        ensures room { length (records_of self.new) < capacity }
        ensures records { ChangesTo self.old self.new (with_room (records_of self.old)) }
    {
        if self.count < RECORDS {
            return;
        }
        let full = *self.row;
        self.wipe();
        for place in 0..PLACES {
            if let Some(record) = latest(&full, place) {
                self.push(*record);
            }
        }
    }
}

// Beside the trait's clauses, which have to be repeated for that, a write and a wipe say what stands in the lent row.
impl Store for LogStore<'_> {
    ghost use Rattle.store.specs.Fits.{places_fit};
    ghost use Rattle.store.specs.Logs.{record_of, row_of, records_of, appended, log_places, ChangesTo};

    ghost places = { log_places };

    ghost fits = { λ store. places_fit (row_of (records_of store)) };

    #[tactic(auto, using(crate::proofs::Meaning::reads))]
    fn read(&self, place: Place, row: &mut Row) -> Option<usize> {
        let record = latest(self.records(), place.into())?;
        Some(lay(place, &record.value, row))
    }

    #[tactic(auto, using(crate::proofs::Logged::appended_writes))]
    fn write(&mut self, place: Place, row: &Row)
        ensures places { log_places self.new ≡ written (log_places self.old) place.at row.now }
        ensures records { ChangesTo self.old self.new (appended (records_of self.old) (record_of place.at row.now)) }
    {
        self.make_room();
        self.push(Record {
            place: place.into(),
            value: *row,
        });
    }

    #[tactic(auto, using(crate::proofs::Logged::empty_log))]
    fn wipe(&mut self)
        ensures places { log_places self.new ≡ wiped }
        ensures records { ChangesTo self.old self.new [] }
    {
        self.count = 0;
    }
}
