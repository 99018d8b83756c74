//! The members of an object that ends: each is emptied by the desk in whose hands it ends. A member that holds nothing
//! is cleared by a look, so an object that never used its members ends without a further locked step.
ghost use Rattle.std.specs.Prelude.{◌≡◌, ◌+◌, ◌<◌, true, false, []};
ghost use Rattle.control_word.specs.Handles.{empty};
ghost use Rattle.control_word.specs.Layout.{spot};
ghost use Rattle.control_word.specs.Packing.{IsCellWord};
ghost use Rattle.control_word.specs.State.{kind_of_member};
ghost use Rattle.control_word.specs.declared.model.event.Event.TheVariants.{ClearMember};
ghost use Rattle.control_block.specs.CellStepKinds.{Gave};
ghost use Rattle.control_block.specs.Inside.{IsSized};
ghost use Rattle.control_block.specs.Leaving.{OutAndGone};
ghost use Rattle.control_block.specs.Rule.{members_of};
ghost use Rattle.control_block.specs.StepKinds.{Ends, HasRoomFor, Rests, tells};

use crate::released::Released;
use crate::step_kinds::StepArgs;
use crate::step_kinds::clears::{Clears, LooksClear};
use crate::steps::{leaves, words};
use crate::table::{Seat, Table};
use control_word::model::handle::Kind;
use control_word::packed::layout::{MEMBERS, block_word};
use control_word::{Block, PackedCell};
use std::marker::Brand;

/// Look: whether a member of an object that ends in the desk's hands holds nothing (own). Then this look clears it;
/// else nothing changes.
#[inline(always)]
pub fn is_empty<V, M: StepArgs>(
    table: &Table<V>,
    seat: &mut Seat<V>,
    block: Block,
    member: u8,
) -> bool
    requires table { seat.old.table_id ≡ table.now.table_id }
    requires rests { Rests seat.old.me }
    requires used { member < members_of seat.old.me.0.shape }
    requires word { (0 < block.0) × (member < 9) × (M.word ≡ member)
        × (spot block.0 (7 + member) < table.now.table_id.words) }
    requires ends { Ends seat.old.me.0 M.object block.0 }
    requires room { HasRoomFor seat.old.me.0 }
    ensures seat { (seat.new.table_id ≡ seat.old.table_id) × (seat.new.id ≡ seat.old.id) }
    ensures cleared { result ≡ true → tells
        (ClearMember M.object M.word (empty (kind_of_member seat.old.me.0.shape.owners M.word)))
        seat.old.me.0 seat.new.me.0 × (seat.new.me.1 ≡ seat.old.me.1) }
    ensures same { result ≡ false → seat.new.me ≡ seat.old.me }
{
    words::load::<V, LooksClear<M>>(table, seat, block_word(block, MEMBERS + member as usize)) == 0
}

/// Clear: what a member of an object that ends in the desk's hands holds comes out, and its funds that were not taken
/// are to be given back (own).
fn swap_out<V, M: StepArgs>(
    table: &Table<V>,
    seat: &mut Seat<V>,
    block: Block,
    member: u8,
) -> PackedCell
    requires table { seat.old.table_id ≡ table.now.table_id }
    requires rests { Rests seat.old.me }
    requires used { member < members_of seat.old.me.0.shape }
    requires word { (0 < block.0) × (member < 9) × (M.word ≡ member)
        × (spot block.0 (7 + member) < table.now.table_id.words) }
    requires ends { Ends seat.old.me.0 M.object block.0 }
    requires room { HasRoomFor seat.old.me.0 }
    ensures seat { (seat.new.table_id ≡ seat.old.table_id) × (seat.new.id ≡ seat.old.id)
        × (seat.new.me.1 ≡ []) }
    ensures cell { IsCellWord result }
    ensures gave { Gave (λ h. ClearMember M.object M.word h)
        (kind_of_member seat.old.me.0.shape.owners M.word) seat.old.me.0 result seat.new.me.0 }
{
    PackedCell::of_bits(words::swap::<V, Clears<M>>(
        table,
        seat,
        block_word(block, MEMBERS + member as usize),
        0,
    ))
}

/// Clear: a member of an object that ends in the desk's hands holds nothing afterwards, and what it held comes out and
/// leaves (own).
pub fn clear<V: Drop, M: StepArgs>(
    table: &Table<V>,
    seat: &mut Seat<V>,
    block: Block,
    member: u8,
    kind: Kind,
) -> (PackedCell, Released<V>)
    requires table { (seat.old.table_id ≡ table.now.table_id) × IsSized seat.old.table_id seat.old.me.0.shape }
    requires rests { Rests seat.old.me }
    requires used { member < members_of seat.old.me.0.shape }
    requires word { (0 < block.0) × (member < 9) × (M.word ≡ member)
        × (spot block.0 (7 + member) < table.now.table_id.words) }
    requires kind { kind_of_member seat.old.me.0.shape.owners member ≡ kind }
    requires ends { Ends seat.old.me.0 M.object block.0 }
    requires room { HasRoomFor seat.old.me.0 }
    ensures seat { (seat.new.table_id ≡ seat.old.table_id)
        × (seat.new.id ≡ seat.old.id) × Rests seat.new.me }
    ensures cleared { OutAndGone (λ h. ClearMember M.object member h) kind seat.old.me.0 result.0
        result.1 seat.new.me.0 }
{
    if is_empty::<V, M>(table, seat, block, member) {
        return (PackedCell::empty(), Released::nothing());
    }
    let out = swap_out::<V, M>(table, seat, block, member);
    let released = leaves::let_go::<V, Brand>(table, seat, kind, out);
    (out, released)
}
