//! The steps of one call by which a handle goes into a cell. What goes in has its funds with it, and what comes out
//! gets those that it lacks; when the call is over nothing is under way.
ghost use Rattle.std.specs.Prelude.{◌≡◌, ◌-◌, ◌<◌, None, IfSome};
ghost use Rattle.control_word.specs.Handles.{object_of};
ghost use Rattle.control_word.specs.declared.model.handle.NumberedHandle.{NumberedHandle};
ghost use Rattle.control_word.specs.Events.{InHand};
ghost use Rattle.control_word.specs.HandleWords.{IsHandleNow, cell_of_handle};
ghost use Rattle.control_word.specs.Packing.{IsCellWord};
ghost use Rattle.control_word.specs.declared.model.event.Event.TheVariants.{Swap};
ghost use Rattle.control_block.specs.CellStepKinds.{IsCellAt, IsWordOf, debt, kind_in};
ghost use Rattle.control_block.specs.CellRetries.{CameOut, IsCounted};
ghost use Rattle.control_block.specs.FundStepKinds.{Owes};
ghost use Rattle.control_block.specs.Inside.{IsSized};
ghost use Rattle.control_block.specs.StepKinds.{HasRoomFor, HoldingInBlock, Rests, goes_on, known};
ghost use Rattle.control_word.specs.Limits.{cell_funds};

use crate::step_kinds::cells::CellArgs;
use crate::steps::{cells, funds};
use crate::table::{Seat, Table};
use control_word::model::handle::Kind;
use control_word::shape::CELL_FUNDS;
use control_word::{HandleWord, PackedCell};

/// The funds that a handle lacks which came out of a cell are brought, as many as were taken. The call is over.
pub(crate) fn settle<V>(table: &Table<V>, seat: &mut Seat<V>, kind: Kind, out: PackedCell)
    requires table { seat.old.table_id ≡ table.now.table_id }
    requires count { IfSome out.owned (λ b. IsCounted kind b table.now.table_id) }
    requires owes { (h : NumberedHandle) × (h.kind ≡ kind)
        × Owes (debt h out.owned (cell_funds - out.taken)) seat.old.me }
    ensures seat { (seat.new.table_id ≡ seat.old.table_id)
        × (seat.new.id ≡ seat.old.id) × Rests seat.new.me }
    ensures settled { seat.new.me.0 ≡ goes_on seat.old.me.0 }
{
    let lacking = out.taken().min(CELL_FUNDS);
    if lacking == 0 {
        return;
    }
    if let Some(block) = out.owned() {
        funds::top_up(table, seat, kind, block, lacking);
    }
}

/// Swap: a handle that the desk holds goes into a cell, and what the cell held comes out
/// ([util.smartptr.atomic.shared], [util.smartptr.atomic.weak]). What was taken of its funds is brought.
#[inline]
pub fn swap<V, A: CellArgs>(
    table: &Table<V>,
    seat: &mut Seat<V>,
    word: usize,
    kind: Kind,
    new: HandleWord,
) -> PackedCell
    requires table { (seat.old.table_id ≡ table.now.table_id) × IsSized seat.old.table_id seat.old.me.0.shape }
    requires rests { Rests seat.old.me }
    requires word { word < table.now.table_id.words }
    requires cell { IsCellAt seat.old.me.0 A.cell word × (kind ≡ kind_in seat.old.me.0.shape A.cell) }
    requires new { IsHandleNow new × IsWordOf seat.old.me.0 A.new (cell_of_handle new) }
    requires hand { InHand (known seat.old.me.0) seat.old.me.0.view.name kind A.new }
    requires holds { IfSome new.block (λ b. HoldingInBlock seat.old.me.0 A.new.kind (object_of A.new)
        A.new.place b.0) }
    requires count { IfSome new.block (λ b. IsCounted kind b table.now.table_id) }
    requires room { A.new.object ≡ None → HasRoomFor seat.old.me.0 }
    ensures seat { (seat.new.table_id ≡ seat.old.table_id)
        × (seat.new.id ≡ seat.old.id) × Rests seat.new.me }
    ensures cell { IsCellWord result }
    ensures swapped { CameOut (λ h. Swap A.cell A.new h) kind seat.old.me.0 result seat.new.me.0 }
{
    let old = cells::swap::<V, A>(table, seat, word, new);
    settle(table, seat, kind, old);
    old
}
