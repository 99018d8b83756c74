//! How a book is closed.
ghost use Rattle.std.specs.Prelude.{◌≡◌, ◌<◌, [], length, sum_by, All};
ghost use Rattle.ownership_ledger.specs.Now.{IsAtMost, StandsForShares};

use crate::book::{Book, ENDED, MADE};
use crate::plays::Glue;
use crate::share::{Share, Totals, View};
use atomic_table::Seat;

impl Book {
    /// The book's totals: the sums over all its shares, in whatever order any threads added. They are
    /// at least what any share saw of the book. It refuses nothing, and frees the book's memory. (own)
    pub fn gather(self, shares: Vec<Share>) -> Totals
        requires book { All (λ s. s.book ≡ self.id) shares.items }
        requires all { length shares.items ≡ self.workers }
        ensures made { result.made ≡ sum_by (λ s. s.own.made) shares.items }
        ensures ended { result.ended ≡ sum_by (λ s. s.own.ended) shares.items }
        ensures seen { All (λ s. IsAtMost s.seen result) shares.items }
    {
        let seat = join_all(&self, shares);
        let Book { table } = self;
        let closed = table.close_with(seat);
        let totals = Totals {
            made: closed.word(MADE),
            ended: closed.word(ENDED),
        };
        closed.free();
        totals
    }
}

// One seat that stands for all the shares.
fn join_all(book: &Book, mut shares: Vec<Share>) -> Seat<(), View>
    requires some { 0 < length shares.items }
    requires book { All (λ s. s.book ≡ book.now.id) shares.items }
    ensures table { result.table_id ≡ book.now.id }
    ensures shares { StandsForShares shares.items result.me.0 }
{
    let Some(share) = shares.pop() else {
        unreachable!()
    };
    let Share { mut seat } = share;
    while let Some(other) = shares.pop() {
        let Share { seat: other } = other;
        book.table.shared.join_seat::<Glue>(&mut seat, other);
    }
    shares.destroy_empty();
    seat
}
