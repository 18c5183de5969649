// A value carried from the row where it is held into the row that a caller handed over.
ghost use Rattle.std.specs.Prelude.{◌≡◌};
ghost use Rattle.settings.specs.Settings.{width};
ghost use Rattle.settings.specs.Values.{value_in, laid};

use settings::place::Place;
use settings::table::Row;

// Lays the value of a place that stands in `held` into `row`, and answers its width.
#[tactic(auto, using(crate::proofs::Meaning::laid_front, settings::proofs::Tabulated::fits))]
pub(crate) fn lay(place: Place, held: &Row, row: &mut Row) -> usize
    ensures width { result ≡ width place.at }
    ensures row { row.new ≡ laid (value_in place.at held.now) row.old }
{
    let width = place.width();
    row[..width].copy_from_slice(&held[..width]);
    width
}
