//! How a book is opened.
ghost use Rattle.std.specs.Prelude.{◌≡◌, ◌+◌, ◌<◌, [], replicate, vec_capacity, IfOk, IfErr};
ghost use Rattle.ownership_ledger.specs.Now.{new_share};
ghost use Rattle.ownership_ledger.specs.Rule.{fresh_seat};

use crate::book::{Book, WORDS};
use crate::plays::Cut;
use crate::share::{Share, View};
use atomic_table::{Seat, Table};
use control_word::Refusal;
use std::alloc::Global;

impl Book {
    /// A book, and one share for each worker, of which there is at least one. All numbers are 0, and
    /// no later call takes memory: the list keeps its room for the shares that come back.
    ///
    /// Refused with `Memory`, and then nothing is kept. (own)
    pub fn open(alloc: Global, workers: u32) -> Result<(Book, Vec<Share>), Refusal>
        requires { 0 < workers }
        ensures book { IfOk result (λ r. r.0.workers ≡ workers) }
        ensures shares { IfOk result (λ r. r.1.items ≡ replicate workers (new_share r.0.id workers)) }
        ensures room { IfOk result (λ r. vec_capacity r.1 ≡ workers) }
        ensures refused { IfErr result (λ why. why ≡ Refusal.Memory) }
    {
        let Ok(mut shares) = Vec::with_capacity(alloc, workers as usize) else {
            return Err(Refusal::Memory);
        };
        let Ok((table, seat)) = Table::of_words(alloc, &[0; WORDS], &workers) else {
            shares.destroy_empty();
            return Err(Refusal::Memory);
        };
        let book = Book { table };
        deal(&book, &mut shares, seat, workers);
        Ok((book, shares))
    }
}

// Each share but the last is cut off from the seat that stands for all of them.
fn deal(book: &Book, shares: &mut Vec<Share>, mut seat: Seat<(), View>, workers: u32)
    requires some { 0 < workers }
    requires room { (shares.old.items ≡ []) × (vec_capacity shares.old ≡ workers) }
    requires seat { (seat.table_id ≡ book.now.id) × (seat.me ≡ (fresh_seat workers workers, [])) }
    ensures shares { shares.new.items ≡ replicate workers (new_share book.now.id workers) }
    ensures room { vec_capacity shares.new ≡ workers }
{
    for _ in 1..workers {
        let one = book.table.shared.split_seat::<Cut>(&mut seat);
        shares.push_reserved(Share { seat: one });
    }
    shares.push_reserved(Share { seat });
}
