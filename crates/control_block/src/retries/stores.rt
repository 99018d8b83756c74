//! The steps of a store: a swap of a cell, and then the leave of what came out.
ghost use Rattle.std.specs.Prelude.{◌≡◌, ◌<◌, None, IfSome};
ghost use Rattle.control_word.specs.Events.{InHand};
ghost use Rattle.control_word.specs.Handles.{object_of};
ghost use Rattle.control_word.specs.HandleWords.{IsHandleNow, cell_of_handle};
ghost use Rattle.control_word.specs.declared.model.event.Event.TheVariants.{Swap};
ghost use Rattle.control_block.specs.CellStepKinds.{IsCellAt, IsWordOf, kind_in};
ghost use Rattle.control_block.specs.CellRetries.{IsCounted};
ghost use Rattle.control_block.specs.Inside.{IsSized};
ghost use Rattle.control_block.specs.Leaving.{OutAndGone};
ghost use Rattle.control_block.specs.StepKinds.{HasRoomFor, HoldingInBlock, Rests, known};

use crate::released::Released;
use crate::step_kinds::cells::CellArgs;
use crate::steps::{cells, leaves};
use crate::table::{Seat, Table};
use control_word::model::handle::Kind;
use control_word::{HandleWord, PackedCell};
use std::marker::Brand;

/// Store: a handle that the desk holds goes into a cell, and what the cell held leaves ([util.smartptr.atomic.shared],
/// [util.smartptr.atomic.weak]).
#[inline(always)]
pub fn store<V: Drop, A: CellArgs>(
    table: &Table<V>,
    seat: &mut Seat<V>,
    word: usize,
    kind: Kind,
    new: HandleWord,
) -> (PackedCell, Released<V>)
    requires table { (seat.old.table_id ≡ table.now.table_id) × IsSized seat.old.table_id seat.old.me.0.shape }
    requires rests { Rests seat.old.me }
    requires word { word < table.now.table_id.words }
    requires cell { IsCellAt seat.old.me.0 A.cell word × (kind ≡ kind_in seat.old.me.0.shape A.cell) }
    requires new { IsHandleNow new × IsWordOf seat.old.me.0 A.new (cell_of_handle new) }
    requires hand { InHand (known seat.old.me.0) seat.old.me.0.view.name kind A.new }
    requires holds { IfSome new.block (λ b. HoldingInBlock seat.old.me.0 A.new.kind (object_of A.new)
        A.new.place b.0) }
    requires count { IfSome new.block (λ b. IsCounted kind b table.now.table_id) }
    requires room { A.new.object ≡ None → HasRoomFor seat.old.me.0 }
    ensures seat { (seat.new.table_id ≡ seat.old.table_id)
        × (seat.new.id ≡ seat.old.id) × Rests seat.new.me }
    ensures stored { OutAndGone (λ h. Swap A.cell A.new h) kind seat.old.me.0 result.0 result.1 seat.new.me.0 }
{
    let old = cells::swap::<V, A>(table, seat, word, new);
    let released = leaves::let_go::<V, Brand>(table, seat, kind, old);
    (old, released)
}
