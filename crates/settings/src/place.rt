// A place in a store: the number of a setting, below the number of settings by its type; and what the table of settings says of it.
ghost use Rattle.std.specs.Prelude.{◌≡◌, ◌<◌, nat_lt};
ghost use Rattle.std.specs.Option.{option_map};
ghost use Rattle.std.specs.Bool.{then_some};
ghost use Rattle.settings.specs.Laws.{SettingsLaws};
ghost use Rattle.settings.specs.Settings.{place_count, place_of, width, allowed, factory};
ghost use Rattle.settings.specs.Values.{laid};

use crate::table::{PLACES, Row, table};
use keyed::last_with;

/// The number of a setting.
// A ghost field, and no `impl Model`: that would hide the bound from clauses and laws, which take it from the place.
#[derive(Clone, Copy, PartialEq, Eq, Debug)]
pub struct Place {
    at: usize,
    ghost bound: { at < place_count },
}

impl Place {
    /// The place with this number; none where no place has it.
    // No `TryFrom`: there is nothing to tell but that there is none, as with NonZero's `new`.
    pub fn new(number: usize) -> Option<Place>
        ensures { option_map (λ p. p.at) result ≡ then_some (nat_lt number place_count) number }
    {
        if number < PLACES {
            Some(Place { at: number })
        } else {
            None
        }
    }

    /// The place of the setting with this identifier; none where no setting has it.
    #[tactic(auto, using(crate::proofs::Tabulated::settings_laws))]
    pub fn of_identifier(identifier: u8) -> Option<Place>
        ensures place { option_map (λ p. p.at) result ≡ place_of identifier }
        ensures laws { SettingsLaws }
    {
        let at = last_with(table(), identifier)?;
        Some(Place { at })
    }

    /// How many bytes a value of this setting has.
    pub fn width(self) -> usize
        ensures { result ≡ width self.at }
    {
        table()[self.at].width
    }

    /// Whether these bytes are a value of this setting: as many as it has, and within its rule.
    pub fn allows(self, value: &[u8]) -> bool
        ensures { result ≡ allowed self.at value.now }
    {
        let setting = table()[self.at];
        match value {
            [first, ..] => value.len() == setting.width && setting.rule.allows(*first),
            [] => false,
        }
    }

    /// Lays the factory value into a row, and answers its width.
    pub fn factory(self, row: &mut Row) -> usize
        ensures width { result ≡ width self.at }
        ensures row { row.new ≡ laid (factory self.at) row.old }
    {
        let setting = table()[self.at];
        let width = setting.width;
        row[..width].fill(0);
        row[width - 1] = setting.factory;
        width
    }
}

// The number of a place.
impl From<Place> for usize {
    ghost from_gives = { λ place number. number ≡ place.at };

    fn from(place: Place) -> usize {
        place.at
    }
}
