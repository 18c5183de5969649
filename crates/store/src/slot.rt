// The slot store: a slot for each setting.
ghost use Rattle.std.specs.Prelude.{◌≡◌};
ghost use Rattle.store.specs.Places.{wiped};
ghost use Rattle.store.specs.Slots.{slot_of, slot_places};

use crate::interface::Store;
use crate::rows::lay;
use settings::place::Place;
use settings::table::{PLACES, Row};

/// A value for each setting, or none, each in a slot of its own.
// No `PartialEq`: two stores that answer alike may differ in bytes past a value's width.
#[derive(Clone, Copy, Debug)]
pub struct SlotStore {
    rows: [Option<Row>; PLACES],
}

impl SlotStore {
    /// A store with no value in any place.
    #[tactic(auto, using(crate::proofs::Meaning::list_wiped))]
    pub fn new() -> SlotStore
        ensures { slot_places result ≡ wiped }
    {
        SlotStore {
            rows: [None; PLACES],
        }
    }
}

impl Store for SlotStore {
    ghost use Rattle.store.specs.Fits.{places_fit};

    ghost places = { slot_places };

    ghost fits = { λ store. places_fit (slot_of store) };

    #[tactic(auto, using(crate::proofs::Meaning::reads))]
    fn read(&self, place: Place, row: &mut Row) -> Option<usize> {
        let held = self.rows[usize::from(place)].as_ref()?;
        Some(lay(place, held, row))
    }

    fn write(&mut self, place: Place, row: &Row) {
        self.rows[usize::from(place)] = Some(*row);
    }

    #[tactic(auto, using(crate::proofs::Meaning::list_wiped))]
    fn wipe(&mut self) {
        self.rows = [None; PLACES];
    }
}
