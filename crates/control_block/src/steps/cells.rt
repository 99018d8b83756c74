//! Cells: what `atomic<shared_ptr>` and `atomic<weak_ptr>` are made of. Each word says which handle the cell holds, and
//! how many of the handle's funds were taken.
ghost use Rattle.std.specs.Prelude.{◌≡◌, ◌≢◌, ◌⊎◌, ◌-◌, ◌<◌, ◌≤◌, true, false, [], None, Some};
ghost use Rattle.std.specs.Prelude.{IfErr, OnOk};
ghost use Rattle.control_word.specs.Events.{InHand};
ghost use Rattle.control_word.specs.Handles.{equivalent, handle};
ghost use Rattle.control_word.specs.HandleWords.{IsHandleNow, cell_of_handle};
ghost use Rattle.control_word.specs.Packing.{IsCellWord};
ghost use Rattle.control_word.specs.declared.model.event.Event.TheVariants.{Compare, Load, Same, Swap};
ghost use Rattle.control_block.specs.StepKinds.{HasRoomFor, HoldingInBlock, Rests, in_call, known, tells};
ghost use Rattle.control_block.specs.FundStepKinds.{owing};
ghost use Rattle.control_block.specs.CellStepKinds.{Gave, IsCellAt, IsHeld, IsWordOf, Took, kind_in};
ghost use Rattle.control_word.specs.Limits.{cell_funds};

use crate::step_kinds::StepArgs;
use crate::step_kinds::cells::{
    CellArgs, CompareSwaps, DiffersEmpty, LoadsEmpty, Peeks, Refills, Swaps, TakesToCompare,
    TakesToLoad, TellsSame,
};
use crate::steps::words;
use crate::table::{Seat, Table};
use control_word::packed::cell::{ONE_TAKEN, with_none_taken};
use control_word::{HandleWord, PackedCell};

/// Look: what a cell holds at this step, and no event (own).
pub fn peek<V, A: CellArgs>(table: &Table<V>, seat: &mut Seat<V>, word: usize) -> PackedCell
    requires table { seat.old.table_id ≡ table.now.table_id }
    requires awake { seat.old.me.0.view.spent ≡ false }
    requires word { word < table.now.table_id.words }
    requires cell { IsCellAt seat.old.me.0 A.cell word }
    ensures seat { (seat.new.table_id ≡ seat.old.table_id) × (seat.new.id ≡ seat.old.id)
        × (seat.new.me ≡ seat.old.me) }
    ensures cell { IsCellWord result }
    ensures held { IsHeld A.cell seat.old.me.0 result }
{
    PackedCell::of_bits(words::load::<V, Peeks<A>>(table, seat, word))
}

/// Look: what a cell holds at this step. Where it shows no object, this is its load ([util.smartptr.atomic.shared],
/// [util.smartptr.atomic.weak]); else nothing changes.
pub fn look<V, A: CellArgs>(table: &Table<V>, seat: &mut Seat<V>, word: usize) -> PackedCell
    requires table { seat.old.table_id ≡ table.now.table_id }
    requires rests { Rests seat.old.me }
    requires word { word < table.now.table_id.words }
    requires cell { IsCellAt seat.old.me.0 A.cell word }
    ensures seat { (seat.new.table_id ≡ seat.old.table_id) × (seat.new.id ≡ seat.old.id)
        × (seat.new.me.1 ≡ []) }
    ensures cell { IsCellWord result }
    ensures held { IsHeld A.cell seat.old.me.0 result }
    ensures event { result.owned ≡ None → tells
        (Load A.cell (handle (kind_in seat.old.me.0.shape A.cell) None result.place)) seat.old.me.0 seat.new.me.0 }
    ensures same { result.owned ≢ None → seat.new.me ≡ seat.old.me }
{
    PackedCell::of_bits(words::load::<V, LoadsEmpty<A>>(table, seat, word))
}

/// Look: what a cell holds at this step. Where it shows no object and isn't equivalent to what is expected, this is a
/// compare that differs ([util.smartptr.atomic.shared], [util.smartptr.atomic.weak]); else nothing changes.
pub fn look_differing<V, A: CellArgs>(
    table: &Table<V>,
    seat: &mut Seat<V>,
    word: usize,
) -> PackedCell
    requires table { seat.old.table_id ≡ table.now.table_id }
    requires rests { Rests seat.old.me }
    requires word { word < table.now.table_id.words }
    requires cell { IsCellAt seat.old.me.0 A.cell word }
    requires expected { InHand (known seat.old.me.0) seat.old.me.0.view.name
        (kind_in seat.old.me.0.shape A.cell) A.expected }
    requires hand { InHand (known seat.old.me.0) seat.old.me.0.view.name (kind_in seat.old.me.0.shape A.cell) A.new }
    ensures seat { (seat.new.table_id ≡ seat.old.table_id) × (seat.new.id ≡ seat.old.id)
        × (seat.new.me.1 ≡ []) }
    ensures cell { IsCellWord result }
    ensures held { IsHeld A.cell seat.old.me.0 result }
    ensures event { let h = handle (kind_in seat.old.me.0.shape A.cell) None result.place in
        result.owned ≡ None → equivalent h A.expected ≡ false
        → tells (Compare A.cell A.expected A.new h false A.weak) seat.old.me.0 seat.new.me.0 }
    ensures alike { result.owned ≡ None
        → equivalent (handle (kind_in seat.old.me.0.shape A.cell) None result.place) A.expected ≡ true
        → seat.new.me ≡ seat.old.me }
    ensures same { result.owned ≢ None → seat.new.me ≡ seat.old.me }
{
    PackedCell::of_bits(words::load::<V, DiffersEmpty<A>>(table, seat, word))
}

/// Look: whether what a cell holds at this step is equivalent to a handle that the desk has, as a compare-exchange
/// compares ([util.smartptr.atomic.shared], [util.smartptr.atomic.weak]).
#[inline]
pub fn holds<V, A: CellArgs>(
    table: &Table<V>,
    seat: &mut Seat<V>,
    word: usize,
    expected: HandleWord,
) -> bool
    requires table { seat.old.table_id ≡ table.now.table_id }
    requires rests { Rests seat.old.me }
    requires word { word < table.now.table_id.words }
    requires cell { IsCellAt seat.old.me.0 A.cell word }
    requires expected { IsWordOf seat.old.me.0 A.expected (cell_of_handle expected) }
    requires hand { InHand (known seat.old.me.0) seat.old.me.0.view.name
        (kind_in seat.old.me.0.shape A.cell) A.expected }
    ensures seat { (seat.new.table_id ≡ seat.old.table_id) × (seat.new.id ≡ seat.old.id)
        × (seat.new.me.1 ≡ []) }
    ensures event { tells (Same A.cell A.expected result) seat.old.me.0 seat.new.me.0 }
{
    // The desk's handle keeps its object's block from being vacant, so that no other object is there: where both words
    // show one block, both handles own one object. The funds that others took meanwhile say only how often the
    // handle in the cell was loaded.
    with_none_taken(words::load::<V, TellsSame<A>>(table, seat, word)) == expected.bits()
}

/// Take a fund, where the cell still shows what was seen: the load of a cell with an object
/// ([util.smartptr.atomic.shared], [util.smartptr.atomic.weak]). It is under way until its fund is turned into a
/// handle. Else nothing changes, and what the cell shows at this step is told.
pub fn take<V, A: CellArgs>(
    table: &Table<V>,
    seat: &mut Seat<V>,
    word: usize,
    seen: PackedCell,
) -> Result<(), PackedCell>
    requires table { seat.old.table_id ≡ table.now.table_id }
    requires rests { Rests seat.old.me }
    requires word { word < table.now.table_id.words }
    requires cell { IsCellAt seat.old.me.0 A.cell word }
    requires seen { IsCellWord seen × (seen.owned ≢ None) × (seen.taken < cell_funds) }
    requires room { HasRoomFor seat.old.me.0 }
    ensures seat { (seat.new.table_id ≡ seat.old.table_id) × (seat.new.id ≡ seat.old.id)
        × (seat.new.me.1 ≡ []) }
    ensures took { OnOk result
        (Took (λ h. Load A.cell h) (kind_in seat.old.me.0.shape A.cell) seat.old.me.0 seen seat.new.me.0) }
    ensures missed { IfErr result (λ x. IsCellWord x × (seat.new.me ≡ seat.old.me)) }
{
    let found = seen.bits();
    let now = words::compare_exchange::<V, TakesToLoad<A>>(
        table,
        seat,
        word,
        found,
        found + ONE_TAKEN,
    );
    if now == found {
        Ok(())
    } else {
        Err(PackedCell::of_bits(now))
    }
}

/// Take a fund, where the cell still shows what was seen: a compare that differs, of a cell with an object
/// ([util.smartptr.atomic.shared], [util.smartptr.atomic.weak]). The load of what it holds is under way until its fund
/// is turned into a handle. Else nothing changes.
pub fn take_differing<V, A: CellArgs>(
    table: &Table<V>,
    seat: &mut Seat<V>,
    word: usize,
    seen: PackedCell,
) -> bool
    requires table { seat.old.table_id ≡ table.now.table_id }
    requires rests { Rests seat.old.me }
    requires word { word < table.now.table_id.words }
    requires cell { IsCellAt seat.old.me.0 A.cell word }
    requires seen { IsCellWord seen × (seen.owned ≢ None) × (seen.taken < cell_funds) }
    requires room { HasRoomFor seat.old.me.0 }
    requires expected { InHand (known seat.old.me.0) seat.old.me.0.view.name
        (kind_in seat.old.me.0.shape A.cell) A.expected }
    requires hand { InHand (known seat.old.me.0) seat.old.me.0.view.name (kind_in seat.old.me.0.shape A.cell) A.new }
    requires differs { (IsWordOf seat.old.me.0 A.expected seen → ⊥) ⊎ (A.weak ≡ true) }
    ensures seat { (seat.new.table_id ≡ seat.old.table_id) × (seat.new.id ≡ seat.old.id)
        × (seat.new.me.1 ≡ []) }
    ensures took { result ≡ true → Took (λ h. Compare A.cell A.expected A.new h false A.weak)
        (kind_in seat.old.me.0.shape A.cell) seat.old.me.0 seen seat.new.me.0 }
    ensures missed { result ≡ false → seat.new.me ≡ seat.old.me }
{
    let found = seen.bits();
    words::compare_exchange::<V, TakesToCompare<A>>(table, seat, word, found, found + ONE_TAKEN)
        == found
}

/// Refill: where the cell still shows what was seen, as many funds as were taken go into it, of those that a handle of
/// the desk's has (own). The handle lacks them then. The desk has seen no more. Else nothing changes.
pub fn refill<V, A: CellArgs, M: StepArgs>(
    table: &Table<V>,
    seat: &mut Seat<V>,
    word: usize,
    seen: PackedCell,
) -> bool
    requires table { seat.old.table_id ≡ table.now.table_id }
    requires rests { Rests seat.old.me }
    requires word { word < table.now.table_id.words }
    requires cell { IsCellAt seat.old.me.0 A.cell word }
    requires seen { IsCellWord seen × (seen.owned ≡ Some M.block) × (M.word ≡ seen.taken)
        × (seen.taken ≤ cell_funds) }
    requires holds { (M.kind ≡ kind_in seat.old.me.0.shape A.cell)
        × HoldingInBlock seat.old.me.0 M.kind M.object M.place M.block.0 }
    ensures seat { (seat.new.table_id ≡ seat.old.table_id) × (seat.new.id ≡ seat.old.id)
        × (seat.new.me.1 ≡ []) }
    ensures refilled { result ≡ true → seat.new.me.0
        ≡ in_call seat.old.me.0 (owing M.kind M.object M.place M.block.0 (cell_funds - seen.taken) 0) }
    ensures missed { result ≡ false → seat.new.me ≡ seat.old.me }
{
    let found = seen.bits();
    let full = seen.handle().bits();
    words::compare_exchange::<V, Refills<M>>(table, seat, word, found, full) == found
}

/// Swap: the new handle goes into the cell with its funds, and what the cell held comes out with those that were not
/// taken ([util.smartptr.atomic.shared], [util.smartptr.atomic.weak]).
pub fn swap<V, A: CellArgs>(
    table: &Table<V>,
    seat: &mut Seat<V>,
    word: usize,
    new: HandleWord,
) -> PackedCell
    requires table { seat.old.table_id ≡ table.now.table_id }
    requires word { word < table.now.table_id.words }
    requires cell { IsCellAt seat.old.me.0 A.cell word }
    requires new { IsHandleNow new × IsWordOf seat.old.me.0 A.new (cell_of_handle new) }
    requires hand { InHand (known seat.old.me.0) seat.old.me.0.view.name (kind_in seat.old.me.0.shape A.cell) A.new }
    requires rests { Rests seat.old.me }
    requires room { A.new.object ≡ None → HasRoomFor seat.old.me.0 }
    ensures seat { (seat.new.table_id ≡ seat.old.table_id) × (seat.new.id ≡ seat.old.id)
        × (seat.new.me.1 ≡ []) }
    ensures cell { IsCellWord result }
    ensures gave { Gave (λ h. Swap A.cell A.new h)
        (kind_in seat.old.me.0.shape A.cell) seat.old.me.0 result seat.new.me.0 }
{
    PackedCell::of_bits(words::swap::<V, Swaps<A>>(table, seat, word, new.bits()))
}

/// Compare and swap: where the cell still shows what was seen, which is what is expected, this is a swap
/// ([util.smartptr.atomic.shared], [util.smartptr.atomic.weak]). Else nothing changes.
pub fn compare_and_swap<V, A: CellArgs>(
    table: &Table<V>,
    seat: &mut Seat<V>,
    word: usize,
    seen: PackedCell,
    new: HandleWord,
) -> bool
    requires table { seat.old.table_id ≡ table.now.table_id }
    requires word { word < table.now.table_id.words }
    requires cell { IsCellAt seat.old.me.0 A.cell word }
    requires seen { IsCellWord seen × IsWordOf seat.old.me.0 A.expected seen }
    requires expected { InHand (known seat.old.me.0) seat.old.me.0.view.name
        (kind_in seat.old.me.0.shape A.cell) A.expected }
    requires new { IsHandleNow new × IsWordOf seat.old.me.0 A.new (cell_of_handle new) }
    requires hand { InHand (known seat.old.me.0) seat.old.me.0.view.name (kind_in seat.old.me.0.shape A.cell) A.new }
    requires rests { Rests seat.old.me }
    requires room { A.new.object ≡ None → HasRoomFor seat.old.me.0 }
    ensures seat { (seat.new.table_id ≡ seat.old.table_id) × (seat.new.id ≡ seat.old.id)
        × (seat.new.me.1 ≡ []) }
    ensures gave { result ≡ true → Gave (λ h. Compare A.cell A.expected A.new h true A.weak)
        (kind_in seat.old.me.0.shape A.cell) seat.old.me.0 seen seat.new.me.0 }
    ensures missed { result ≡ false → seat.new.me ≡ seat.old.me }
{
    let found = seen.bits();
    words::compare_exchange::<V, CompareSwaps<A>>(table, seat, word, found, new.bits()) == found
}
