// Rows of keyed records: what a record's key is, and the one search for the last record with a key.
#![tactic(auto)]

ghost use Rattle.std.specs.Prelude.{◌≡◌, ◌<◌, length, IfSome, slice_index_or};
ghost use Rattle.std.specs.Option.{option_map};
ghost use Rattle.keyed.specs.Equality.{TellsApart, numbers, options};
ghost use Rattle.keyed.specs.Keys.{FindsLast, last_index, last_of};

/// What may be a key: keys that compare equal are the same key.
pub trait Key: PartialEq + Copy {
    ghost tells_apart: { TellsApart Self.eq };
}

// One block for each type of number: a block for all of them would need a trait that says what this law says.
impl Key for u8 {
    ghost tells_apart = { numbers };
}

impl Key for usize {
    ghost tells_apart = { numbers };
}

// For records of which some have no key: those have the key none.
impl<K: Key> Key for Option<K> {
    ghost tells_apart = { options K.eq K.tells_apart };
}

/// A record with a key.
pub trait Keyed {
    type Key: Key;

    // The key that the record has.
    ghost key: { Self → Self.Key };

    fn key(&self) -> Self::Key
        ensures { result ≡ key self.now };
}

// A slot that may hold a record has its key, or none where it is empty.
impl<R: Keyed> Keyed for Option<R> {
    type Key = Option<R::Key>;

    ghost key = { option_map R.key };

    fn key(&self) -> Option<R::Key> {
        self.as_ref().map(|record| record.key())
    }
}

/// The index of the last record with this key, or none where no record has it.
pub fn last_with<R: Keyed>(records: &[R], wanted: R::Key) -> Option<usize>
    ensures last { FindsLast R.key wanted records.now result }
    ensures within { IfSome result (λ i. i < length records.now) }
    ensures index { result ≡ last_index (λ r. R.Key.eq (R.key r) wanted) records.now }
    ensures record_found { (d : R) → option_map (λ i. slice_index_or records.now i d) result ≡ last_of (λ r. R.Key.eq (R.key r) wanted) records.now }
{
    records.iter().rposition(|record| record.key() == wanted)
}
