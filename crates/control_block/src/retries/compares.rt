//! The steps of one compare-and-swap of a cell. It looks first, and tries to swap only where what it sees is what it
//! expects.
ghost use Rattle.std.specs.Prelude.{◌≡◌, ◌<◌, true, false, None, Some, IfSome};
ghost use Rattle.control_word.specs.Events.{InHand};
ghost use Rattle.control_word.specs.HandleWords.{cell_of_handle};
ghost use Rattle.control_word.specs.Packing.{IsCellWord};
ghost use Rattle.control_word.specs.declared.model.event.Event.TheVariants.{Compare};
ghost use Rattle.control_block.specs.CellStepKinds.{IsWordOf};
ghost use Rattle.control_block.specs.CellRetries.{IsAim, IsOffer, IsOut};
ghost use Rattle.control_block.specs.StepKinds.{HasRoomFor, known};
ghost use Rattle.control_word.specs.Limits.{cell_funds};

use crate::pause::Pause;
use crate::retries::cells::settle;
use crate::retries::loads::top_up;
use crate::step_kinds::cells::CellArgs;
use crate::steps::{cells, funds};
use crate::table::{Seat, Table};
use control_word::model::handle::Kind;
use control_word::shape::CELL_FUNDS;
use control_word::{Block, HandleWord, PackedCell};
use std::sync::Wait;

/// Whether a cell's word shows a handle that is equivalent ([util.smartptr.atomic.shared]): the same place, and the
/// same block or none.
#[inline(always)]
fn is_alike(seen: PackedCell, expected: HandleWord) -> bool
    ensures alike { result ≡ true → (seen.owned ≡ expected.block) × (seen.place ≡ expected.place) }
    ensures differs { result ≡ false → seen.owned ≡ expected.block → seen.place ≡ expected.place → ⊥ }
{
    seen.holds(expected)
}

/// What a cell with an object shows comes out, by a compare that differs: a fund is taken and turned into a handle,
/// where the cell still shows what was seen. Else nothing changes.
fn take_out<V, A: CellArgs, R: Wait>(
    rt: &R,
    table: &Table<V>,
    seat: &mut Seat<V>,
    word: usize,
    kind: Kind,
    block: Block,
    seen: PackedCell,
) -> bool
    requires aim { IsAim A.cell kind word table.now.table_id seat.old.table_id seat.old.me }
    requires seen { IsCellWord seen × (seen.owned ≡ Some block) × (seen.taken < cell_funds) }
    requires room { HasRoomFor seat.old.me.0 }
    requires hands { InHand (known seat.old.me.0) seat.old.me.0.view.name kind A.expected
        × InHand (known seat.old.me.0) seat.old.me.0.view.name kind A.new }
    requires differs { IsWordOf seat.old.me.0 A.expected seen → ⊥ }
    ensures table { seat.new.table_id ≡ seat.old.table_id }
    ensures differed { result ≡ true
        → IsOut (λ h. Compare A.cell A.expected A.new h false A.weak) kind seat.old.me.0 seen seat.new.me }
    ensures missed { result ≡ false → seat.new.me ≡ seat.old.me }
{
    if !cells::take_differing::<V, A>(table, seat, word, seen) {
        return false;
    }
    funds::turn(table, seat, kind, block);
    top_up::<V, A, R>(rt, table, seat, word, kind, block, seen);
    true
}

/// One try at the swap of a cell that shows what is expected. Where the cell shows something else by then, nothing
/// changes.
fn try_swap<V, A: CellArgs>(
    table: &Table<V>,
    seat: &mut Seat<V>,
    word: usize,
    kind: Kind,
    seen: PackedCell,
    new: HandleWord,
) -> bool
    requires aim { IsAim A.cell kind word table.now.table_id seat.old.table_id seat.old.me }
    requires seen { IsCellWord seen × IsWordOf seat.old.me.0 A.expected seen }
    requires offer { IsOffer kind A.expected A.new (cell_of_handle new) table.now.table_id seat.old.me.0 }
    ensures table { seat.new.table_id ≡ seat.old.table_id }
    ensures swapped { result ≡ true
        → IsOut (λ h. Compare A.cell A.expected A.new h true A.weak) kind seat.old.me.0 seen seat.new.me }
    ensures missed { result ≡ false → seat.new.me ≡ seat.old.me }
{
    if cells::compare_and_swap::<V, A>(table, seat, word, seen, new) {
        settle(table, seat, kind, seen);
        return true;
    }
    false
}

/// One try at a compare, of what is expected and what is to go in. None where others change the cell meanwhile, and
/// while all its funds are taken: then nothing changes.
#[inline(always)]
fn try_compare<V, A: CellArgs, R: Wait>(
    rt: &R,
    table: &Table<V>,
    seat: &mut Seat<V>,
    pause: &mut Pause,
    word: usize,
    kind: Kind,
    offer: (HandleWord, HandleWord),
) -> Option<(bool, PackedCell)>
    requires aim { IsAim A.cell kind word table.now.table_id seat.old.table_id seat.old.me }
    requires expected { IsWordOf seat.old.me.0 A.expected (cell_of_handle offer.0) }
    requires offer { IsOffer kind A.expected A.new (cell_of_handle offer.1) table.now.table_id seat.old.me.0 }
    ensures table { seat.new.table_id ≡ seat.old.table_id }
    ensures compared { IfSome result (λ r. IsOut (λ h. Compare A.cell A.expected A.new h r.0 A.weak) kind
        seat.old.me.0 r.1 seat.new.me) }
    ensures missed { result ≡ None → seat.new.me ≡ seat.old.me }
{
    let (expected, new) = offer;
    let seen = cells::look_differing::<V, A>(table, seat, word);
    if is_alike(seen, expected) {
        if try_swap::<V, A>(table, seat, word, kind, seen, new) {
            return Some((true, seen));
        }
        pause.wait();
        return None;
    }
    let Some(block) = seen.owned() else {
        return Some((false, seen));
    };
    if seen.taken() >= CELL_FUNDS {
        pause.give_way();
        return None;
    }
    if take_out::<V, A, R>(rt, table, seat, word, kind, block, seen) {
        return Some((false, seen));
    }
    None
}

/// Compare and swap: where what a cell holds is equivalent to what is expected, the new handle goes in, and what the
/// cell held comes out; else a copy of what it holds ([util.smartptr.atomic.shared], [util.smartptr.atomic.weak]). True
/// where it was swapped. It tries again while others change the cell, and while all its funds are taken: then it yields
/// the processor after some tries.
pub fn compare<V, A: CellArgs, R: Wait>(
    rt: &R,
    table: &Table<V>,
    seat: &mut Seat<V>,
    word: usize,
    kind: Kind,
    expected: HandleWord,
    new: HandleWord,
) -> (bool, PackedCell)
    requires aim { IsAim A.cell kind word table.now.table_id seat.old.table_id seat.old.me }
    requires expected { IsWordOf seat.old.me.0 A.expected (cell_of_handle expected) }
    requires offer { IsOffer kind A.expected A.new (cell_of_handle new) table.now.table_id seat.old.me.0 }
    ensures table { seat.new.table_id ≡ seat.old.table_id }
    ensures compared { IsOut (λ h. Compare A.cell A.expected A.new h result.0 A.weak) kind
        seat.old.me.0 result.1 seat.new.me }
{
    let mut pause = Pause::new();
    for _ in rt.forever() {
        if let Some(done) = try_compare::<V, A, R>(
            rt,
            table,
            seat,
            &mut pause,
            word,
            kind,
            (expected, new),
        ) {
            return done;
        }
    }
    unreachable!()
}
