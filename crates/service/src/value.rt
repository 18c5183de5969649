// A service value: its five fields, its nine bytes on the line, and the rule that it has to keep.
ghost use Rattle.std.specs.Prelude.{◌≡◌};
ghost use Rattle.service.specs.Layout.{bytes_of, service_of};
ghost use Rattle.service.specs.Laws.{ReadingUndoesWriting, WritingUndoesReading};
ghost use Rattle.service.specs.Rule.{is_deletion, keeps_rule};

use crate::domain::Domain;
use keyed::Keyed;

/// A service has so many bytes on the line.
pub const SIZE: usize = 9;

/// Every id is below this number.
pub const IDS: usize = 128;

// The flags of a service that is a source.
const SOURCE: u8 = 1;

// The flags of an intermittent source.
const INTERMITTENT_SOURCE: u8 = 5;

// The highest flags that a block transfer may have.
const TRANSFER_FLAGS: u8 = 3;

/// A service value, as it comes over the line: it may break the rule.
#[derive(Clone, Copy, PartialEq, Eq, Debug)]
pub struct Service {
    pub id: u8,
    // Bits and no enum: a source, an intermittent one, and for a block transfer any of the lowest two.
    pub flags: u8,
    // A byte and no `Domain`: a value that breaks the rule, and a deletion, may have any.
    pub domain: u8,
    pub destination: u16,
    /// A time of 0 asks for the service to be deleted.
    // A number and no `Option`, since these are the fields as they come over the line.
    pub time: u32,
}

impl Keyed for Service {
    type Key = u8;

    ghost key = { λ s. s.id };

    fn key(&self) -> u8 {
        self.id
    }
}

// The service that nine bytes from the line stand for.
impl From<[u8; SIZE]> for Service {
    ghost from_gives = { λ bytes service. service ≡ service_of bytes };

    fn from(bytes: [u8; SIZE]) -> Service
        ensures value { result ≡ service_of bytes }
        ensures undoes { ReadingUndoesWriting }
    {
        let [id, flags, domain, high, low, first, second, third, fourth] = bytes;
        Service {
            id,
            flags,
            domain,
            destination: u16::from_be_bytes([high, low]),
            time: u32::from_be_bytes([first, second, third, fourth]),
        }
    }
}

// The nine bytes of a service on the line.
impl From<Service> for [u8; SIZE] {
    ghost from_gives = { λ service bytes. bytes ≡ bytes_of service };

    fn from(service: Service) -> [u8; SIZE]
        ensures value { result ≡ bytes_of service }
        ensures undoes { WritingUndoesReading }
    {
        let [high, low] = service.destination.to_be_bytes();
        let [first, second, third, fourth] = service.time.to_be_bytes();
        [
            service.id,
            service.flags,
            service.domain,
            high,
            low,
            first,
            second,
            third,
            fourth,
        ]
    }
}

impl Service {
    /// Whether the value asks for its service to be deleted.
    pub fn is_deletion(self) -> bool
        ensures { result ≡ is_deletion self }
    {
        self.time == 0
    }

    /// Whether the value may be accepted. A deletion asks only for an id that there is.
    pub fn keeps_rule(self) -> bool
        ensures { result ≡ keeps_rule self }
    {
        if usize::from(self.id) >= IDS {
            return false;
        }
        if self.is_deletion() {
            return true;
        }
        match Domain::try_from(self.domain) {
            Ok(Domain::Publish) => self.flags == SOURCE,
            Ok(Domain::Event) => self.flags == INTERMITTENT_SOURCE,
            Ok(Domain::BlockTransfer) => self.flags <= TRANSFER_FLAGS,
            Err(_) => false,
        }
    }
}
