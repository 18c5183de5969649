// What every store does, by what it means.
ghost use Rattle.std.specs.Prelude.{◌≡◌, length};
ghost use Rattle.std.specs.Option.{option_map};
ghost use Rattle.store.specs.Places.{Values, FitsSettings, held, written, wiped};
ghost use Rattle.settings.specs.Values.{read_into};

use settings::place::Place;
use settings::table::Row;

/// A value for each setting, or none. No call refuses, and none asks anything of its caller.
pub trait Store {
    // For each place no value, or the value that it has.
    ghost places: { Self → Values };

    /// Lays a place's value into the row and answers its width; none, and the row as it was, where the place has no value.
    fn read(&self, place: Place, row: &mut Row) -> Option<usize>
        ensures width { result ≡ option_map length (held (places self.now) place.at) }
        ensures row { row.new ≡ read_into (held (places self.now) place.at) row.old };

    /// Gives a place the value that stands at the row's start. No other place changes.
    fn write(&mut self, place: Place, row: &Row)
        ensures places { places self.new ≡ written (places self.old) place.at row.now };

    /// Empties every place.
    fn wipe(&mut self)
        ensures places { places self.new ≡ wiped };

    // As many places as there are settings, and each value held has its setting's width.
    ghost fits: { (store : Self) → FitsSettings (places store) };
}
