//! What a worker does with its share.
ghost use Rattle.std.specs.Prelude.{◌≡◌, ◌+◌, ◌<◌};
ghost use Rattle.ownership_ledger.specs.Now.{IsAtMost, IsSameShare, one_more_made, one_more_ended};

use crate::book::{Book, ENDED, MADE};
use crate::plays::{AddsEnded, AddsMade, ReadsEnded, ReadsMade};
use crate::share::{Share, Totals};

impl Book {
    /// One more object was made: adds 1 to the number `made` of the share and of the book, in one
    /// step. That number of the share ends at 4,294,967,295. It refuses nothing. (own)
    pub fn add_made(&self, share: &mut Share)
        requires book { share.old.book ≡ self.now.id }
        requires room { share.old.own.made < u32.MAX }
        ensures share { IsSameShare share.old share.new }
        ensures own { share.new.own ≡ one_more_made share.old.own }
        ensures book { share.old.seen.made < share.new.seen.made }
        ensures other { share.new.seen.ended ≡ share.old.seen.ended }
    {
        self.table
            .shared
            .fetch_add::<AddsMade>(&mut share.seat, MADE, 1);
    }

    /// One more object has ended: adds 1 to the number `ended` of the share and of the book, in one
    /// step. That number of the share ends at 4,294,967,295. It refuses nothing. (own)
    pub fn add_ended(&self, share: &mut Share)
        requires book { share.old.book ≡ self.now.id }
        requires room { share.old.own.ended < u32.MAX }
        ensures share { IsSameShare share.old share.new }
        ensures own { share.new.own ≡ one_more_ended share.old.own }
        ensures book { share.old.seen.ended < share.new.seen.ended }
        ensures other { share.new.seen.made ≡ share.old.seen.made }
    {
        self.table
            .shared
            .fetch_add::<AddsEnded>(&mut share.seat, ENDED, 1);
    }

    /// The book's numbers, each at its own load, while other workers may add to them. Each is at least
    /// what the share has added and what it saw before. It refuses nothing. (own)
    pub fn so_far(&self, share: &mut Share) -> Totals
        requires { share.old.book ≡ self.now.id }
        ensures share { share.new ≡ record share.old { seen = result } }
        ensures own { IsAtMost share.old.own result }
        ensures seen { IsAtMost share.old.seen result }
        ensures alone { share.old.workers ≡ 1 → result ≡ share.old.own }
    {
        let shared = &self.table.shared;
        // The ends come first: where each is added after its object's make, no answer has more ends
        // than makes.
        let ended = shared.load::<ReadsEnded>(&mut share.seat, ENDED);
        let made = shared.load::<ReadsMade>(&mut share.seat, MADE);
        Totals { made, ended }
    }
}
