// The domains that a service may belong to, each with its number on the line.
ghost use Rattle.std.specs.Prelude.{◌++◌, Some, codes};
ghost use Rattle.std.specs.Fmt.{decimal};
ghost use Rattle.service.specs.Domains.{Reads};

use std::error::Error;
use std::fmt;

/// What a service is for.
#[derive(Clone, Copy, PartialEq, Eq, Debug)]
pub enum Domain {
    Publish,
    Event,
    BlockTransfer,
}

/// A number that stands for no domain.
#[derive(Clone, Copy, PartialEq, Eq, Debug)]
pub struct UnknownDomain(pub u8);

impl TryFrom<u8> for Domain {
    type Error = UnknownDomain;

    ghost try_from_gives = { Reads };

    fn try_from(number: u8) -> Result<Domain, UnknownDomain> {
        match number {
            0 => Ok(Domain::Publish),
            1 => Ok(Domain::Event),
            3 => Ok(Domain::BlockTransfer),
            _ => Err(UnknownDomain(number)),
        }
    }
}

impl fmt::Display for UnknownDomain {
    ghost output = { λ unknown. Some (codes "no domain has the number " ++ decimal unknown.0) };

    fn fmt<W: fmt::Write>(&self, f: &mut fmt::Formatter<W>) -> fmt::Result {
        write!(f, "no domain has the number {}", self.0)
    }
}

impl Error for UnknownDomain {}
