//! One worker's share of a book.
use atomic_table::Seat;
use std::marker::Model;

/// How many objects were made, and how many of them have ended.
#[derive(Clone, Copy, PartialEq, Eq, Debug)]
pub struct Totals {
    pub made: u64,
    pub ended: u64,
}

/// What a seat at a book knows. No value of it is made.
pub struct View {
    /// How many shares the book has.
    pub workers: u64,
    /// How many of them the seat stands for: one, but while the book is opened or gathered.
    pub parts: u64,
    /// What these shares have added.
    pub own: Totals,
    /// Each of the book's numbers, as the seat's last step on it left or found it.
    pub seen: Totals,
}

/// One worker's part of a book. It has no bytes: its numbers are what the proof knows of it. It must
/// be spent by the book's `gather`.
pub struct Share {
    pub(crate) seat: Seat<(), View>,
}

impl Model for Share {
    ghost use Rattle.ownership_ledger.specs.Now.{ShareNow};

    ghost Value = { ShareNow };

    ghost use Rattle.ownership_ledger.specs.Inside.{share_view, IsShare};

    ghost view = { share_view };

    ghost invariant = { IsShare };
}
