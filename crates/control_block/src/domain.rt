//! A domain: blocks and cells that desks share.
ghost use Rattle.std.specs.Prelude.{◌≡◌, ◌⊎◌, ◌↔◌, ℕ, ◌+◌, ◌<◌, ◌≤◌, [], length};
ghost use Rattle.std.specs.Prelude.{replicate, vec_capacity, vec_len, None, IfOk, IfErr, IsTrue};
ghost use Rattle.control_word.specs.Layout.{IsWithinLimits};
ghost use Rattle.control_word.specs.State.{kind_of_member};
ghost use Rattle.control_block.specs.Desks.{IsFirstDesk, all_blocks};
ghost use Rattle.control_block.specs.Rule.{members_of};
ghost use Rattle.control_word.specs.Limits.{most_blocks, most_free_cells};

use crate::desk::Desk;
use crate::slot::Slot;
use crate::table::{Ruling, SeatView};
use atomic_table::Table;
use control_word::model::handle::Kind;
use control_word::packed::layout::table_words;
use control_word::{Block, Refusal, Shape};
use slot_arena::{Arena, ValueCell};
use std::alloc::{AllocError, Global};
use std::marker::Model;

/// Blocks and cells that desks share between threads, without a lock.
#[derive(Drop)]
pub struct Domain<V: Drop> {
    pub(crate) table: Table<Slot<V>, SeatView<V>, Shape, Ruling, Global>,
    pub(crate) shape: Shape,
}

impl<V: Drop> Model for Domain<V> {
    ghost use Rattle.control_block.specs.Desks.{DomainNow};
    ghost use Rattle.control_block.specs.Inside.{IsDomain};

    ghost Value = { DomainNow };

    ghost view = { λ d. record { id = d.table.shared.table_id; shape = d.shape } };

    ghost invariant = { λ d. IsDomain d.table.shared.key d.table.shared.table_id d.shape };
}

impl<V: Drop> Domain<V> {
    /// What is true of every domain (own): for the proof of a caller that needs it.
    pub fn assert_invariant(&self)
        ensures { IsWithinLimits self.now.shape }
    {
        let _shape = &self.shape;
    }

    /// How many blocks there are (own).
    pub fn blocks(&self) -> u32
        ensures { result ≡ self.now.shape.blocks }
    {
        self.shape.blocks
    }

    /// How many members an object has (own), 9 at most.
    #[inline]
    pub fn members(&self) -> u8
        ensures { result ≡ members_of self.now.shape }
    {
        self.shape.members()
    }

    /// The kind of handles that a member has, by its number (own).
    #[inline]
    pub fn kind_of_member(&self, member: u8) -> Kind
        ensures { result ≡ kind_of_member self.now.shape.owners member }
    {
        self.shape.kind_of_member(member)
    }

    /// How many members of an object are for owners (own): all but `up` and the further weak ones.
    #[inline]
    pub fn owners(&self) -> u32
        ensures { result ≡ self.now.shape.owners }
    {
        self.shape.owners
    }

    /// How many free shared cells there are (own).
    pub fn shared_cells(&self) -> u32
        ensures { (result ≡ self.now.shape.shared_cells) × (result + self.now.shape.weak_cells ≤ most_free_cells) }
    {
        self.shape.shared_cells
    }

    /// How many free weak cells there are (own). They stand behind the free shared ones.
    pub fn weak_cells(&self) -> u32
        ensures { result ≡ self.now.shape.weak_cells }
    {
        self.shape.weak_cells
    }
}

/// All blocks, least first, with room for each.
fn all_stored(alloc: Global, blocks: u32) -> Result<Vec<Block, Global>, AllocError>
    requires { blocks ≤ most_blocks }
    ensures { IfOk result (λ v. (v.items ≡ all_blocks blocks) × (vec_capacity v ≡ blocks)) }
{
    let mut store = Vec::with_capacity(alloc, blocks as usize)?;
    for number in 0..blocks {
        store.push_reserved(Block::numbered(number + 1));
    }
    Ok(store)
}

/// A slot for each cell, in the cells' order.
fn slots_of<V: Drop>(alloc: Global, cells: Vec<ValueCell<V>>) -> Result<Vec<Slot<V>>, AllocError>
    ensures { IfOk result (λ slots. slots.items ≡ cells.items) }
{
    let mut slots = Vec::with_capacity(alloc, cells.len())?;
    for cell in cells {
        slots.push_reserved(Slot::of(cell));
    }
    Ok(slots)
}

/// A new domain, and its first desk, which has all blocks and the whole allowance (own). It is refused `Memory` where a
/// growth was really refused, and `Shape` just where the shape is outside the limits.
pub fn open<V: Drop>(alloc: Global, shape: Shape) -> Result<(Domain<V>, Desk<V>), Refusal>
    ensures begins { IfOk result (λ r. (r.0.shape ≡ shape) × IsFirstDesk r.0 r.1) }
    ensures refused { IfErr result (λ why. (why ≡ Refusal.Memory) ⊎ (why ≡ Refusal.Shape)) }
    ensures shape { IfErr result (λ why. why ≡ Refusal.Shape ↔ (IsWithinLimits shape → ⊥)) }
    ensures within { IfOk result (λ _. IsWithinLimits shape) }
{
    if !shape.is_within_limits() {
        return Err(Refusal::Shape);
    }
    let words = Vec::from_elem(alloc, 0u64, table_words(&shape))?;
    let store = all_stored(alloc, shape.blocks)?;
    let slots = slots_of(alloc, Arena::new(alloc, shape.blocks)?)?;
    let (table, seat) = match Table::new(alloc, words.as_slice(), slots, &shape) {
        Ok(made) => made,
        Err(_) => return Err(Refusal::Memory),
    };
    let desk = Desk {
        seat,
        allowance: shape.allowance,
        held: 0,
        endings: 0,
        store,
        shelf_word: 0,
    };
    Ok((Domain { table, shape }, desk))
}
