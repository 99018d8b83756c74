//! Which call a fault is of, and what it was about.

use std::fmt;

/// A place for a pointer that other threads see too.
#[derive(Clone, Copy, PartialEq, Eq, Debug, Drop)]
pub enum Spot {
    /// A free cell for owners, by its number.
    Shared(u32),
    /// A free cell for weak pointers.
    Weak(u32),
    /// A member of an object for owners, by its number: `first` is 0, and `next` is 1.
    Owner(u8),
    /// A weak member, by its number: `up` is 0.
    WeakMember(u8),
}

impl fmt::Display for Spot {
    fn fmt<W: fmt::Write>(&self, f: &mut fmt::Formatter<W>) -> fmt::Result {
        match self {
            Spot::Shared(number) => write!(f, "shared cell {number}"),
            Spot::Weak(number) => write!(f, "weak cell {number}"),
            Spot::Owner(0) => f.write_str("member first"),
            Spot::Owner(1) => f.write_str("member next"),
            Spot::Owner(number) => write!(f, "owner {number}"),
            Spot::WeakMember(0) => f.write_str("member up"),
            Spot::WeakMember(number) => write!(f, "weak {number}"),
        }
    }
}

/// A call on a pointer, a desk or a place.
#[derive(Clone, Copy, PartialEq, Eq, Debug, Drop)]
pub enum Call {
    Make,
    Share,
    Alias,
    Downgrade,
    SharedFromThis,
    WeakFromThis,
    Lock,
    Upgrade,
    Read,
    UseCount,
    End,
    Expired,
    Visit,
    Hold,
    Load(Spot),
    Holds(Spot),
    Store(Spot),
    Exchange(Spot),
    Clear(Spot),
    CompareExchange(Spot),
    Settle,
    Shelve,
    Unshelve,
    Team,
}

impl Call {
    /// The call's name.
    fn name(&self) -> &'static str {
        match self {
            Call::Make => "make",
            Call::Share => "share",
            Call::Alias => "alias",
            Call::Downgrade => "downgrade",
            Call::SharedFromThis => "shared_from_this",
            Call::WeakFromThis => "weak_from_this",
            Call::Lock => "lock",
            Call::Upgrade => "upgrade",
            Call::Read => "read",
            Call::UseCount => "use_count",
            Call::End => "end",
            Call::Expired => "expired",
            Call::Visit => "visit",
            Call::Hold => "hold",
            Call::Load(_) => "load",
            Call::Holds(_) => "holds",
            Call::Store(_) => "store",
            Call::Exchange(_) => "exchange",
            Call::Clear(_) => "clear",
            Call::CompareExchange(_) => "compare_exchange",
            Call::Settle => "settle",
            Call::Shelve => "shelve",
            Call::Unshelve => "unshelve",
            Call::Team => "team",
        }
    }

    /// What it was about.
    fn spot(&self) -> Option<Spot> {
        match self {
            Call::Load(spot) => Some(*spot),
            Call::Holds(spot) => Some(*spot),
            Call::Store(spot) => Some(*spot),
            Call::Exchange(spot) => Some(*spot),
            Call::Clear(spot) => Some(*spot),
            Call::CompareExchange(spot) => Some(*spot),
            _ => None,
        }
    }
}

impl fmt::Display for Call {
    fn fmt<W: fmt::Write>(&self, f: &mut fmt::Formatter<W>) -> fmt::Result {
        f.write_str(self.name())?;
        match self.spot() {
            Some(spot) => write!(f, " of {spot}"),
            None => Ok(()),
        }
    }
}
