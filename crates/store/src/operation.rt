// The operations on a store, and two stores that are given the same ones.
ghost use Rattle.std.specs.Prelude.{◌≡◌, ◌↔◌, IsTrue};
ghost use Rattle.std.specs.Option.{option_map};
ghost use Rattle.store.specs.Laws.{StoreLaws};
ghost use Rattle.store.specs.Operations.{answer, shown, after, answers, after_all};

use crate::interface::Store;
use settings::place::Place;
use settings::table::{Row, WIDEST};

/// One call on a store.
#[derive(Clone, Copy, Debug)]
pub enum Operation {
    Read(Place),
    Write(Place, Row),
    Wipe,
}

impl Operation {
    // Gives a store this operation, and answers the width and the row of what was read, or none: side by side, as a read answers them.
    fn run<S: Store>(self, store: &mut S) -> Option<(usize, Row)>
        ensures answer { result ≡ option_map shown (answer (S.places store.old) self) }
        ensures after { S.places store.new ≡ after (S.places store.old) self }
    {
        match self {
            Operation::Read(place) => {
                let mut row = [0; WIDEST];
                let width = store.read(place, &mut row)?;
                Some((width, row))
            }
            Operation::Write(place, row) => {
                store.write(place, &row);
                None
            }
            Operation::Wipe => {
                store.wipe();
                None
            }
        }
    }
}

/// Gives two stores the same operations, one after another, and answers whether they answered every one alike.
#[tactic(auto, using(crate::proofs::Runs::store_laws), unfolding(crate::specs::Operations::answers))]
pub fn agree<X: Store, Y: Store>(x: &mut X, y: &mut Y, operations: &[Operation]) -> bool
    ensures answers { IsTrue result ↔ (answers (X.places x.old) operations.now ≡ answers (Y.places y.old) operations.now) }
    ensures x_after { X.places x.new ≡ after_all (X.places x.old) operations.now }
    ensures y_after { Y.places y.new ≡ after_all (Y.places y.old) operations.now }
    ensures alike { X.places x.old ≡ Y.places y.old → IsTrue result × (X.places x.new ≡ Y.places y.new) }
    ensures laws { StoreLaws }
{
    // No `all`: both stores are given every operation, also after a disagreement.
    let mut alike = true;
    for operation in operations {
        let operation = *operation; // a copy, so that it is told apart once for both stores, whatever a store writes
        alike &= operation.run(x) == operation.run(y);
    }
    alike
}
