//! What threads added, and an opening that is refused.
ghost use Rattle.std.specs.Prelude.{◌≡◌, ◌+◌, ◌≤◌, All};

use crate::same::is_told;
use control_word::Refusal;
use ownership_ledger::{Book, Share, Totals};
use std::alloc::Global;
use std::test::Fail;
use std::thread::{Threads, for_each_mut, join_mut};

fn add(book: &Book, share: &mut Share, made: u32, ended: u32)
    requires book { share.old.book ≡ book.now.id }
    requires room { (share.old.own.made + made ≤ u32.MAX) × (share.old.own.ended + ended ≤ u32.MAX) }
    ensures book { share.new.book ≡ share.old.book }
    ensures made { share.new.own.made ≡ share.old.own.made + made }
    ensures ended { share.new.own.ended ≡ share.old.own.ended + ended }
{
    for _ in 0..made {
        book.add_made(share);
    }
    for _ in 0..ended {
        book.add_ended(share);
    }
}

// Two workers, each in a thread of its own.
fn add_in_threads(rt: &impl Threads, book: &Book, one: &mut Share, two: &mut Share)
    requires book { (one.old.book ≡ book.now.id) × (two.old.book ≡ book.now.id) }
    requires one { (one.old.own.made ≤ 1000) × (one.old.own.ended ≤ 1000) }
    requires two { (two.old.own.made ≤ 1000) × (two.old.own.ended ≤ 1000) }
    ensures { (one.new.book ≡ book.now.id) × (two.new.book ≡ book.now.id) }
{
    join_mut(
        rt,
        &mut || add(book, one, 100, 40),
        &mut || add(book, two, 23, 5),
    );
}

// Two of three workers add, and are joined: what the third one's share shows then, and what all gather to.
fn gather_three(rt: &impl Threads, alloc: Global) -> Result<[Totals; 2], Refusal> {
    let (book, mut shares) = Book::open(alloc, 3)?;
    let Some(mut one) = shares.pop() else {
        unreachable!()
    };
    let Some(mut two) = shares.pop() else {
        unreachable!()
    };
    let Some(mut three) = shares.pop() else {
        unreachable!()
    };
    add_in_threads(rt, &book, &mut one, &mut two);
    let shown = book.so_far(&mut three);
    shares.push_reserved(one);
    shares.push_reserved(two);
    shares.push_reserved(three);
    Ok([shown, book.gather(shares)])
}

#[test]
fn so_far_shows_what_joined_workers_added(rt: HostRuntime) -> Result<(), Fail> {
    let want = Totals {
        made: 123,
        ended: 45,
    };
    is_told(&rt, gather_three(&rt, rt.alloc()), [want, want])
}

// The share at i adds 9,000, 8,000, .. to `made`, and what is left of 10,000 to `ended`.
fn add_each<R: Threads + Sync>(rt: &R, book: &Book, shares: &mut [Share])
    requires book { All (λ s. s.book ≡ book.now.id) shares.old }
    requires room { All (λ s. (s.own.made ≡ 0) × (s.own.ended ≡ 0)) shares.old }
    ensures { All (λ s. s.book ≡ book.now.id) shares.new }
{
    for_each_mut(
        rt,
        shares,
        4,
        &|i, share| {
            let ended = if i < 4 { 1000 * (i as u32 + 1) } else { 0 };
            add(book, share, 10_000 - ended, ended)
        },
    );
}

// Four workers add, and are joined: what their shares gather to.
fn gather_four<R: Threads + Sync>(rt: &R, alloc: Global) -> Result<Totals, Refusal> {
    let (book, mut shares) = Book::open(alloc, 4)?;
    add_each(rt, &book, shares.as_mut_slice());
    Ok(book.gather(shares))
}

#[test]
fn four_threads_gather_to_their_sums(rt: HostRuntime) -> Result<(), Fail> {
    let want = Totals {
        made: 30_000,
        ended: 10_000,
    };
    is_told(&rt, gather_four(&rt, rt.alloc()), want)
}

// A book is opened for 16 workers, of whom none adds: how many shares there are, and what they gather to.
fn open_and_gather(alloc: Global) -> Result<(usize, Totals), Refusal> {
    let (book, shares) = Book::open(alloc, 16)?;
    let count = shares.len();
    Ok((count, book.gather(shares)))
}

// `rt try --test --fail-alloc N` refuses the Nth allocation, and an opening has three. Then it answers
// `Memory`, and the next one is as if it had never been.
#[test]
fn a_refused_opening_leaves_nothing(rt: HostRuntime) -> Result<(), Fail> {
    let told = match open_and_gather(rt.alloc()) {
        Err(Refusal::Memory) => open_and_gather(rt.alloc()),
        told => told,
    };
    is_told(&rt, told, (16, Totals { made: 0, ended: 0 }))
}

// A sole share adds: what it shows, and what it is gathered to.
fn gather_one(alloc: Global) -> Result<[Totals; 2], Refusal> {
    let (book, mut shares) = Book::open(alloc, 1)?;
    let Some(mut share) = shares.pop() else {
        unreachable!()
    };
    add(&book, &mut share, 3, 2);
    let shown = book.so_far(&mut share);
    shares.push_reserved(share);
    Ok([shown, book.gather(shares)])
}

// What is added and told takes no memory: `tests/refuse_allocations` compares with the opening alone.
#[test]
fn one_share_adds_and_is_gathered(rt: HostRuntime) -> Result<(), Fail> {
    let want = Totals { made: 3, ended: 2 };
    is_told(&rt, gather_one(rt.alloc()), [want, want])
}
