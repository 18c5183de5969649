// The table of services: eight entries, no two with one id, and each value in them keeps the rule, by its type.
ghost use Rattle.std.specs.Prelude.{◌≡◌, ◌+◌, ◌<◌, ◌↔◌, IsTrue, IsNone, IfSome, MatchOption, if◌then◌else◌, Some, None, Ok, Err, slice_index_or, slice_set};
ghost use Rattle.keyed.specs.Keys.{FindsLast, IsAbsent};
ghost use Rattle.services.specs.Entries.{Sound, capacity, key_in, may_be_held, IsPlaceFor};
ghost use Rattle.service.specs.Rule.{ids};

use keyed::last_with;
use service::value::Service;
use std::error::Error;
use std::fmt;

// The services that a table can hold at one time.
const CAPACITY: usize = 8;

/// The services that are held, no two of them with one id.
// A ghost field, and no `impl Model`: that would hide what holds of every table from the laws, and the entries from the clause that says which of them stay.
// And no `PartialEq`: two tables that answer alike may have their services in other entries.
#[derive(Clone, Copy, Debug)]
pub struct Table {
    entries: [Option<Service>; CAPACITY],
    ghost sound: { Sound entries },
}

/// Why a value is not accepted.
#[derive(Clone, Copy, PartialEq, Eq, Debug)]
pub enum Refusal {
    /// The value breaks the rule.
    Rule,
    /// As many other services are held as the table can hold.
    Full,
}

impl fmt::Display for Refusal {
    ghost use Rattle.services.specs.Refusing.{text_of};

    ghost output = { λ refusal. Some (text_of refusal) };

    fn fmt<W: fmt::Write>(&self, f: &mut fmt::Formatter<W>) -> fmt::Result {
        f.write_str(match self {
            Refusal::Rule => "the service breaks the rule",
            Refusal::Full => "no entry is free",
        })
    }
}

impl Error for Refusal {}

impl Table {
    ghost use Rattle.services.specs.declared.table.Refusal.TheVariants.{Full};
    ghost use Rattle.services.specs.Accepting.{is_full, answer_to, afterwards, OthersStay, PutInPlace};
    ghost use Rattle.services.specs.Laws.{TableLaws};
    ghost use Rattle.services.specs.Services.{services, held, nothing_held};

    /// A table that holds no service.
    pub fn new() -> Table
        ensures value { services result ≡ nothing_held }
        ensures laws { TableLaws }
    {
        Table {
            entries: [None; CAPACITY],
        }
    }

    /// Makes it hold no service again.
    pub fn clear(&mut self)
        ensures { services self.new ≡ nothing_held }
    {
        *self = Table::new();
    }

    /// The service with this id, or none where none is held; a number that is no id has none.
    #[tactic(auto, using(crate::proofs::Reading::services_found))]
    pub fn get(&self, id: u8) -> Option<Service>
        ensures { result ≡ slice_index_or (services self.now) id None }
    {
        self.entries[self.find(Some(id))?]
    }

    /// How many entries are free.
    #[tactic(auto, using(crate::proofs::Counting::counted_sound))]
    pub fn left(&self) -> usize
        ensures { result + held (services self.now) ≡ capacity }
    {
        // Not by `filter` and `count`, which branch at each entry and take nearly twice the time.
        self.entries
            .iter()
            .map(|entry| usize::from(entry.is_none()))
            .sum()
    }

    /// Takes a value in, or refuses it and leaves all as it was. A deletion takes the service out.
    pub fn accept(&mut self, service: Service) -> Result<(), Refusal>
        ensures answer { result ≡ answer_to (services self.old) service }
        ensures after { services self.new ≡ afterwards (services self.old) service }
        ensures in_place { PutInPlace self.old.entries service self.new.entries }
    {
        if !service.keeps_rule() {
            return Err(Refusal::Rule);
        }
        if service.is_deletion() {
            self.remove(service.id);
            return Ok(());
        }
        self.place(service)
    }

    // The index of the entry with this id, or for none of a free one; of several, the last.
    fn find(&self, id: Option<u8>) -> Option<usize>
        ensures last { FindsLast key_in id self.now.entries result }
        ensures within { IfSome result (λ at. at < capacity) }
    {
        last_with(&self.entries, id)
    }

    // The index of the entry that has this id, or where none has it of a free one.
    fn place_for(&self, id: u8) -> Option<usize>
        requires { id < ids }
        ensures place { MatchOption result (IsAbsent key_in (Some id) self.now.entries) (IsPlaceFor self.now.entries id) }
        ensures full { IsNone result ↔ (held (slice_set (services self.now) id None) ≡ capacity) }
    {
        self.find(Some(id)).or_else(|| self.find(None))
    }

    // Takes the service with this id out; where it is not held there is nothing to do.
    #[tactic(auto, using(crate::proofs::Changing::freed, crate::proofs::Changing::not_held))]
    fn remove(&mut self, id: u8)
        requires { id < ids }
        ensures after { services self.new ≡ slice_set (services self.old) id None }
        ensures others { OthersStay self.old.entries id self.new.entries }
    {
        if let Some(at) = self.find(Some(id)) {
            self.entries[at] = None;
        }
    }

    // Puts a value into the entry that has its id, or where no entry has it into a free one.
    #[tactic(auto, using(crate::proofs::Changing::changed))]
    fn place(&mut self, service: Service) -> Result<(), Refusal>
        requires { IsTrue (may_be_held service) }
        ensures answer { result ≡ (if is_full (services self.old) service then Err Full else Ok tt) }
        ensures after { services self.new ≡ (if is_full (services self.old) service then services self.old else slice_set (services self.old) service.id (Some service)) }
        ensures in_place { PutInPlace self.old.entries service self.new.entries }
    {
        let at = self.place_for(service.id).ok_or(Refusal::Full)?;
        self.entries[at] = Some(service);
        Ok(())
    }
}
