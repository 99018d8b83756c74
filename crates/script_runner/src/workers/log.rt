//! What a worker says while it runs, and adds to its share.
ghost use Rattle.std.specs.Prelude.{◌≡◌, ◌+◌};
ghost use Rattle.std.specs.Coded.{Coded-set};
ghost use Rattle.atomic_table.specs.Seated.{table_id_coded};

use ownership_ledger::{Book, Share};
use step_core::Said;

/// Whether an act of a thread took something into the hand; what the thread said, in memory that was asked for before;
/// the book of the run with the worker's share, to which each of its makes and of the ends
/// that it is told of is added, and for how many of these the share has room. Where there is no room for a line or in
/// the share, the log is full: it gets no more of either, while the thread goes on.
pub(crate) struct Log<'a> {
    pub taken: bool,
    pub said: Vec<Said>,
    pub full: bool,
    pub book: &'a Book,
    pub share: Share,
    pub room: u32,
    ghost here: { share.book ≡ book.now.id } by { Coded-set table_id_coded share.book book.now.id },
    ghost numbers: { share.own.made + share.own.ended + room ≡ 4294967295 },
}
