//! Single steps on a word of the table, which tell what they found. What the rule asks of each is one record.
ghost use Rattle.std.specs.Prelude.{◌≡◌, ◌+◌, ◌-◌, ◌%◌, ◌^◌, ◌<◌, ◌==◌, bit_and, bit_or};
ghost use mathlib.Core.Option.{none};
ghost use prog.Atomic.{either};
ghost use Rattle.atomic_table.specs.Table.{step};
ghost use Rattle.control_block.specs.Stepping.{MayStep};

use crate::slot::Slot;
use crate::table::{Seat, SeatView, Table};
use atomic_table::Play;

/// A look.
#[inline(always)]
pub fn load<V, M: Play<Slot<V>, SeatView<V>>>(
    table: &Table<V>,
    seat: &mut Seat<V>,
    word: usize,
) -> u64
    requires { (seat.old.table_id ≡ table.now.table_id) × (word < table.now.table_id.words)
        × MayStep table.now.key table.now.table_id.slots seat.old.id seat.old.me word (λ n. n)
        (M.then (step table.now.table_id.slots word 0 0 none) seat.old.me) }
    ensures { (seat.new.table_id ≡ seat.old.table_id) × (seat.new.id ≡ seat.old.id)
        × M.then (step table.now.table_id.slots word 0 0 none) seat.old.me result seat.new.me }
{
    table.load::<M>(seat, word)
}

/// The word becomes this.
#[inline(always)]
pub fn store<V, M: Play<Slot<V>, SeatView<V>>>(
    table: &Table<V>,
    seat: &mut Seat<V>,
    word: usize,
    new: u64,
)
    requires { (seat.old.table_id ≡ table.now.table_id) × (word < table.now.table_id.words)
        × MayStep table.now.key table.now.table_id.slots seat.old.id seat.old.me word (λ _. new)
        (λ _. M.then (step table.now.table_id.slots word new 0 none) seat.old.me new) }
    ensures { (seat.new.table_id ≡ seat.old.table_id) × (seat.new.id ≡ seat.old.id)
        × M.then (step table.now.table_id.slots word new 0 none) seat.old.me new seat.new.me }
{
    table.store::<M>(seat, word, new);
}

/// The word becomes this, and what it was is found.
#[inline(always)]
pub fn swap<V, M: Play<Slot<V>, SeatView<V>>>(
    table: &Table<V>,
    seat: &mut Seat<V>,
    word: usize,
    new: u64,
) -> u64
    requires { (seat.old.table_id ≡ table.now.table_id) × (word < table.now.table_id.words)
        × MayStep table.now.key table.now.table_id.slots seat.old.id seat.old.me word (λ _. new)
        (M.then (step table.now.table_id.slots word new 0 none) seat.old.me) }
    ensures { (seat.new.table_id ≡ seat.old.table_id) × (seat.new.id ≡ seat.old.id)
        × M.then (step table.now.table_id.slots word new 0 none) seat.old.me result seat.new.me }
{
    table.swap::<M>(seat, word, new)
}

/// So much is added.
#[inline(always)]
pub fn fetch_add<V, M: Play<Slot<V>, SeatView<V>>>(
    table: &Table<V>,
    seat: &mut Seat<V>,
    word: usize,
    more: u64,
) -> u64
    requires { (seat.old.table_id ≡ table.now.table_id) × (word < table.now.table_id.words)
        × MayStep table.now.key table.now.table_id.slots seat.old.id seat.old.me word (λ n. (n + more) % 2 ^ 64)
        (M.then (step table.now.table_id.slots word more 0 none) seat.old.me) }
    ensures { (seat.new.table_id ≡ seat.old.table_id) × (seat.new.id ≡ seat.old.id)
        × M.then (step table.now.table_id.slots word more 0 none) seat.old.me result seat.new.me }
{
    table.fetch_add::<M>(seat, word, more)
}

/// So much is taken away.
#[inline(always)]
pub fn fetch_sub<V, M: Play<Slot<V>, SeatView<V>>>(
    table: &Table<V>,
    seat: &mut Seat<V>,
    word: usize,
    less: u64,
) -> u64
    requires { (seat.old.table_id ≡ table.now.table_id) × (word < table.now.table_id.words)
        × MayStep table.now.key table.now.table_id.slots seat.old.id seat.old.me word
        (λ n. (n + (2 ^ 64 - less)) % 2 ^ 64)
        (M.then (step table.now.table_id.slots word less 0 none) seat.old.me) }
    ensures { (seat.new.table_id ≡ seat.old.table_id) × (seat.new.id ≡ seat.old.id)
        × M.then (step table.now.table_id.slots word less 0 none) seat.old.me result seat.new.me }
{
    table.fetch_sub::<M>(seat, word, less)
}

/// These bits are set.
#[inline(always)]
pub fn fetch_or<V, M: Play<Slot<V>, SeatView<V>>>(
    table: &Table<V>,
    seat: &mut Seat<V>,
    word: usize,
    bits: u64,
) -> u64
    requires { (seat.old.table_id ≡ table.now.table_id) × (word < table.now.table_id.words)
        × MayStep table.now.key table.now.table_id.slots seat.old.id seat.old.me word (λ n. bit_or n bits)
        (M.then (step table.now.table_id.slots word bits 0 none) seat.old.me) }
    ensures { (seat.new.table_id ≡ seat.old.table_id) × (seat.new.id ≡ seat.old.id)
        × M.then (step table.now.table_id.slots word bits 0 none) seat.old.me result seat.new.me }
{
    table.fetch_or::<M>(seat, word, bits)
}

/// All other bits are cleared.
#[inline(always)]
pub fn fetch_and<V, M: Play<Slot<V>, SeatView<V>>>(
    table: &Table<V>,
    seat: &mut Seat<V>,
    word: usize,
    bits: u64,
) -> u64
    requires { (seat.old.table_id ≡ table.now.table_id) × (word < table.now.table_id.words)
        × MayStep table.now.key table.now.table_id.slots seat.old.id seat.old.me word (λ n. bit_and n bits)
        (M.then (step table.now.table_id.slots word bits 0 none) seat.old.me) }
    ensures { (seat.new.table_id ≡ seat.old.table_id) × (seat.new.id ≡ seat.old.id)
        × M.then (step table.now.table_id.slots word bits 0 none) seat.old.me result seat.new.me }
{
    table.fetch_and::<M>(seat, word, bits)
}

/// The word becomes `new`, where it was `old`.
#[inline(always)]
pub fn compare_exchange<V, M: Play<Slot<V>, SeatView<V>>>(
    table: &Table<V>,
    seat: &mut Seat<V>,
    word: usize,
    old: u64,
    new: u64,
) -> u64
    requires { (seat.old.table_id ≡ table.now.table_id) × (word < table.now.table_id.words)
        × MayStep table.now.key table.now.table_id.slots seat.old.id seat.old.me word (λ n. either (n == old) new n)
        (M.then (step table.now.table_id.slots word old new none) seat.old.me) }
    ensures { (seat.new.table_id ≡ seat.old.table_id) × (seat.new.id ≡ seat.old.id)
        × M.then (step table.now.table_id.slots word old new none) seat.old.me result seat.new.me }
{
    table.compare_exchange::<M>(seat, word, old, new)
}
