//! A desk is cut in two.
ghost use Rattle.std.specs.Prelude.{◌≡◌, ◌⊎◌, ◌↔◌, ℕ, ◌+◌, ◌≤◌, ◌<◌, ◌==◌, []};
ghost use Rattle.std.specs.Prelude.{◌++◌, length, vec_capacity, List, Option, IfOk, IfErr, IsTrue};
ghost use Rattle.std.specs.List.{filter};
ghost use Rattle.control_word.specs.State.{Has};
ghost use Rattle.control_word.specs.declared.place.Block.{Block};
ghost use Rattle.control_block.specs.Desks.{Belongs, stock_of};
ghost use Rattle.control_block.specs.Parting.{HoldsAll, IsTooMuch, Parted, SplitsOff, free_of, in_history, times};
ghost use Rattle.control_block.specs.StepKinds.{MaySplit, Rests, known};
ghost use Rattle.control_block.specs.SlotLists.{handles_in};

use crate::desk::Desk;
use crate::domain::Domain;
use crate::handles::Held;
use crate::step_kinds::SplitArgs;
use crate::steps::seats;
use crate::table::{Seat, Table};
use control_word::{Block, Refusal, Refused};
use std::alloc::Global;
use std::marker::Brand;

/// Blocks go behind those of a store that has room for them.
pub(crate) fn append_all(store: &mut Vec<Block>, more: &[Block])
    requires { length store.old.items + length more.now ≤ vec_capacity store.old }
    ensures { (store.new.items ≡ store.old.items ++ more.now) × (vec_capacity store.new ≡ vec_capacity store.old) }
{
    for block in more {
        store.push_reserved(*block);
    }
}

/// The least blocks of a store go over to an empty one that has room for them.
fn pass_least(store: &mut Vec<Block>, count: usize, to: &mut Vec<Block>)
    requires count { count ≤ length store.old.items }
    requires room { (to.old.items ≡ []) × (count ≤ vec_capacity to.old) }
    ensures room { (vec_capacity store.new ≡ vec_capacity store.old)
        × (vec_capacity to.new ≡ vec_capacity to.old) }
    ensures count { (length to.new.items ≡ count) × (length store.new.items + count ≡ length store.old.items) }
    ensures same { (b : ℕ) → times b to.new.items + times b store.new.items ≡ times b store.old.items }
    ensures least { (b c : Block) → Has b to.new.items → Has c store.new.items → b.0 ≤ c.0 }
{
    store.sort_unstable_by(|a, b| b.number().cmp(&a.number()));
    let left = store.len() - count;
    append_all(to, &store.as_slice()[left..]);
    store.truncate(left);
}

/// What lists of handles are made of (own): handles, or slots that have one each or none.
pub trait Lent {
    ghost use Rattle.std.specs.Prelude.{◌≡◌, length};
    ghost use Rattle.control_block.specs.declared.handles.Held.{Held};

    /// The handles in a list.
    ghost handles: { List Self → List Held };

    /// How many they are (own).
    fn count(list: &[Self]) -> usize
        ensures { result ≡ length (handles list.now) };
}

impl Lent for Held {
    ghost handles = { λ l. l };

    fn count(list: &[Held]) -> usize {
        list.len()
    }
}

impl Lent for Option<Held> {
    ghost handles = { handles_in };

    fn count(list: &[Option<Held>]) -> usize {
        count_filled(list)
    }
}

/// How many slots have a handle.
fn count_filled(slots: &[Option<Held>]) -> usize
    ensures { result ≡ length (handles_in slots.now) }
{
    let mut count = 0;
    for slot in slots {
        if slot.is_some() {
            count += 1;
        }
    }
    count
}

/// The two steps of a split: a look at which the new desk gets its name, and the cut that gives its seat. The proof of
/// each call picks what G gives.
fn part<V, T: Lent, G: SplitArgs>(
    table: &Table<V>,
    seat: &mut Seat<V>,
    allowance: u32,
    handles: &[T],
    blocks: &[Block],
) -> Seat<V>
    requires table { seat.old.table_id ≡ table.now.table_id }
    requires rests { Rests seat.old.me }
    requires word { 0 < table.now.table_id.words }
    requires picked { (G.allowance ≡ allowance)
        × (G.handles ≡ in_history (known seat.old.me.0) (T.handles handles.now)) × (G.blocks ≡ blocks.now) }
    requires may { MaySplit seat.old.me.0 allowance
        (in_history (known seat.old.me.0) (T.handles handles.now)) blocks.now }
    ensures seat { (seat.new.table_id ≡ seat.old.table_id) × (seat.new.me.1 ≡ []) }
    ensures other { (result.table_id ≡ seat.old.table_id) × (result.me.1 ≡ []) }
    ensures event { Parted seat.old.me.0 allowance (in_history (known seat.old.me.0) (T.handles handles.now))
        blocks.now seat.new.me.0 result.me.0 }
{
    seats::note_split::<V, G>(table, seat);
    seats::cut(table, seat)
}

impl<V: Drop> Desk<V> {
    /// Whether so much of the allowance can be given with so many handles: it keeps what the others need, 1 at least.
    fn gives(&self, allowance: u32, handles: usize) -> bool
        ensures gives { IsTrue result → (0 < allowance) × (handles ≤ allowance)
            × (allowance ≤ free_of self.now handles) }
        ensures fits { IsTrue result ↔ (IsTooMuch self.now allowance handles → ⊥) }
    {
        let stay = (self.held() as usize).saturating_sub(handles);
        let keep = stay.max(1);
        let free = (self.allowance as usize).saturating_sub(keep);
        let wanted = allowance as usize;
        0 < wanted && handles <= wanted && wanted <= free
    }

    /// Whether a second desk can get so much of the allowance with the handles in these slots (own).
    pub fn may_give<T: Lent>(&self, allowance: u32, slots: &[T]) -> bool
        ensures { IsTrue result ↔ (IsTooMuch self.now allowance (length (T.handles slots.now)) → ⊥) }
    {
        self.gives(allowance, T::count(slots))
    }

    /// A second desk gets a part of the allowance, the `blocks` least vacant blocks and these handles, `count` of them.
    fn cut_off<T: Lent>(
        &mut self,
        alloc: Global,
        domain: &Domain<V>,
        allowance: u32,
        blocks: u32,
        handles: &[T],
        count: usize,
    ) -> Result<Desk<V>, Refusal>
        requires domain { Belongs self.old domain.now }
        requires held { HoldsAll self.old (T.handles handles.now) × (length (T.handles handles.now) ≡ count) }
        requires blocks { blocks ≤ length (stock_of self.old) }
        ensures parts { IfOk result (λ d. SplitsOff self.old allowance blocks (T.handles handles.now) self.new d) }
        ensures fits { IfOk result (λ _. IsTooMuch self.old allowance count → ⊥) }
        ensures limit { IfErr result (λ why. why ≡ Refusal.Limit ↔ IsTooMuch self.old allowance count) }
        ensures refused { IfErr result (λ why. (why ≡ Refusal.Limit) ⊎ (why ≡ Refusal.Memory)) }
        ensures same { IfErr result (λ _. self.new ≡ self.old) }
    {
        if !self.gives(allowance, count) {
            return Err(Refusal::Limit);
        }
        let given = count as u32;
        let Ok(mut store) = Vec::with_capacity(alloc, domain.shape.blocks as usize) else {
            return Err(Refusal::Memory);
        };
        pass_least(&mut self.store, blocks as usize, &mut store);
        let table = &domain.table.shared;
        let seat = part::<V, T, Brand>(table, &mut self.seat, allowance, handles, store.as_slice());
        self.held -= given;
        self.allowance -= allowance;
        let other = Desk {
            seat,
            allowance,
            held: given,
            endings: 0,
            store,
            shelf_word: self.shelf_word,
        };
        Ok(other)
    }

    /// A second desk gets a part of the allowance, the `blocks` least vacant blocks and these handles, which come back
    /// in their order (own). It is refused `Limit` just where the allowance is 0, less than the number of handles or
    /// more than is free here, and else `Memory` only where a growth was really refused. Then nothing changes, and the
    /// handles come back. Conditions: the handles are held by this desk, and there are as many vacant blocks.
    pub fn split(
        &mut self,
        alloc: Global,
        domain: &Domain<V>,
        allowance: u32,
        blocks: u32,
        handles: Vec<Held>,
    ) -> Result<(Desk<V>, Vec<Held>), Refused<Vec<Held>>>
        requires domain { Belongs self.old domain.now }
        requires held { HoldsAll self.old handles.items }
        requires blocks { blocks ≤ length (stock_of self.old) }
        ensures parts { IfOk result (λ r. SplitsOff self.old allowance blocks handles.items self.new r.0) }
        ensures handles { IfOk result (λ r. r.1.items ≡ handles.items) }
        ensures fits { IfOk result (λ _. IsTooMuch self.old allowance (length handles.items) → ⊥) }
        ensures limit { IfErr result
            (λ r. r.why ≡ Refusal.Limit ↔ IsTooMuch self.old allowance (length handles.items)) }
        ensures refused { IfErr result (λ r. (r.why ≡ Refusal.Limit) ⊎ (r.why ≡ Refusal.Memory)) }
        ensures same { IfErr result (λ r. (r.back.items ≡ handles.items) × (self.new ≡ self.old)) }
    {
        let count = handles.len();
        match self.cut_off(alloc, domain, allowance, blocks, handles.as_slice(), count) {
            Ok(other) => Ok((other, handles)),
            Err(why) => Err(Refused { why, back: handles }),
        }
    }

    /// The same for the handles in slots, which stay where they lie: they are the second desk's from then on (own). It
    /// takes no memory for them. It is refused as `split` is, and then nothing changes. Conditions: the handles are
    /// held by this desk, and there are as many vacant blocks.
    pub fn split_slots<T: Lent>(
        &mut self,
        alloc: Global,
        domain: &Domain<V>,
        allowance: u32,
        blocks: u32,
        slots: &[T],
    ) -> Result<Desk<V>, Refusal>
        requires domain { Belongs self.old domain.now }
        requires held { HoldsAll self.old (T.handles slots.now) }
        requires blocks { blocks ≤ length (stock_of self.old) }
        ensures parts { IfOk result (λ d. SplitsOff self.old allowance blocks (T.handles slots.now) self.new d) }
        ensures fits { IfOk result (λ _. IsTooMuch self.old allowance (length (T.handles slots.now)) → ⊥) }
        ensures limit { IfErr result
            (λ why. why ≡ Refusal.Limit ↔ IsTooMuch self.old allowance (length (T.handles slots.now))) }
        ensures refused { IfErr result (λ why. (why ≡ Refusal.Limit) ⊎ (why ≡ Refusal.Memory)) }
        ensures same { IfErr result (λ _. self.new ≡ self.old) }
    {
        self.cut_off(alloc, domain, allowance, blocks, slots, T::count(slots))
    }
}
