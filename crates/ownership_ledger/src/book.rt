//! The book that workers share.
//! Word 0 is the number of objects made, word 8 the number of those that ended. Seven words that stay 0
//! follow each, so that the two lie on different cache lines of 64 bytes.
use crate::share::View;
use atomic_table::{Table, TableRule};
use std::alloc::Global;
use std::marker::Model;

pub(crate) const WORDS: usize = 16;

pub(crate) const MADE: usize = 0;

pub(crate) const ENDED: usize = 8;

/// The rule: between any two steps each number is the sum of what the shares added.
/// The table is told how many shares it has.
pub(crate) struct Sums;

impl TableRule<(), View, u32> for Sums {
    ghost use Rattle.ownership_ledger.specs.Rule.{KeptBook, fresh_seat};

    ghost holds = { KeptBook };

    ghost first = { λ workers. fresh_seat workers workers };
}

/// Two numbers that workers in any threads add to. It must be spent by `gather`.
pub struct Book {
    pub(crate) table: Table<(), View, u32, Sums, Global>,
}

impl Model for Book {
    ghost use Rattle.ownership_ledger.specs.Now.{BookNow};

    ghost Value = { BookNow };

    ghost use Rattle.ownership_ledger.specs.Inside.{book_view, IsBook};

    ghost view = { book_view };

    ghost invariant = { IsBook };
}
