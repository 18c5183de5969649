// The settings, as one table: a row for each, in the order of the places.
ghost use Rattle.std.specs.Prelude.{◌≡◌};
ghost use Rattle.settings.specs.Settings.{settings, keeps};

use keyed::Keyed;

/// How many settings there are, and so how many places a store has.
pub const PLACES: usize = 8;

/// No setting has more bytes.
pub const WIDEST: usize = 11;

/// Room for a value of any setting. The value stands at the start, and what lies past it is of no meaning.
// A plain array with a width answered beside it, since a value is handed over in a row that the caller owns, with no heap.
pub type Row = [u8; WIDEST];

// What a setting asks of its values, by their first byte.
#[derive(Clone, Copy)]
pub(crate) enum Rule {
    Any,
    AtMost(u8),
    NotZero,
}

impl Rule {
    // Whether a value that begins with this byte keeps the rule.
    pub(crate) fn allows(self, first: u8) -> bool
        ensures { result ≡ keeps self first }
    {
        match self {
            Rule::Any => true,
            Rule::AtMost(most) => first <= most,
            Rule::NotZero => first != 0,
        }
    }
}

#[derive(Clone, Copy)]
pub(crate) struct Setting {
    // Its name on the line.
    pub(crate) identifier: u8,
    // How many bytes a value has.
    pub(crate) width: usize,
    pub(crate) rule: Rule,
    // The last byte of the factory value; the bytes before it are zeros.
    pub(crate) factory: u8,
}

const SETTINGS: [Setting; PLACES] = [
    // macAddress
    Setting {
        identifier: 0x01,
        width: 8,
        rule: Rule::Any,
        factory: 0,
    },
    // networkId
    Setting {
        identifier: 0x03,
        width: 2,
        rule: Rule::Any,
        factory: 0,
    },
    // txPower
    Setting {
        identifier: 0x04,
        width: 1,
        rule: Rule::Any,
        factory: 8,
    },
    // powerInfo
    Setting {
        identifier: 0x05,
        width: 11,
        rule: Rule::AtMost(2),
        factory: 0,
    },
    // OTAPlockout
    Setting {
        identifier: 0x15,
        width: 1,
        rule: Rule::AtMost(1),
        factory: 0,
    },
    // autojoin
    Setting {
        identifier: 0x18,
        width: 1,
        rule: Rule::AtMost(1),
        factory: 0,
    },
    // euCompliantMode
    Setting {
        identifier: 0x1b,
        width: 1,
        rule: Rule::AtMost(1),
        factory: 0,
    },
    // ttl
    Setting {
        identifier: 0x13,
        width: 1,
        rule: Rule::NotZero,
        factory: 127,
    },
];

pub(crate) fn table() -> &'static [Setting; PLACES]
    ensures { result.now ≡ settings }
{
    &SETTINGS
}

// The table is searched by identifier.
impl Keyed for Setting {
    type Key = u8;

    ghost key = { λ s. s.identifier };

    fn key(&self) -> u8 {
        self.identifier
    }
}
