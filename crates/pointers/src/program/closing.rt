//! How a domain is closed.
ghost use Rattle.std.specs.Prelude.{◌≡◌};
ghost use Rattle.control_block.specs.Desks.{Belongs, endings_of};
ghost use Rattle.control_block.specs.Own.{IsSole};
ghost use Rattle.pointers.specs.Programs.{IsClosed};

use control_block::census::{Census, close};
use control_block::desk::Desk;
use control_block::domain::Domain;

/// A desk that has the whole allowance, with nothing left to end, closes its domain.
pub(crate) fn close_whole<V: Drop>(domain: Domain<V>, desk: Desk<V>) -> Census<V>
    requires here { Belongs desk domain }
    requires sole { IsSole desk }
    requires none { endings_of desk ≡ 0 }
    ensures { IsClosed desk domain.shape result }
{
    match close(domain, desk) {
        Ok(census) => census,
        Err(_) => unreachable!(),
    }
}
