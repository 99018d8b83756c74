//! Handles that leave: by themselves, or as they came out of a cell. Each leaves with the funds that it has, all of
//! them or those that were not taken, by one step.
ghost use Rattle.std.specs.Prelude.{◌≡◌, ◌<◌, ◌≤◌, [], is_some, IfSome, Some};
ghost use Rattle.control_word.specs.Handles.{handle, owner, weak_of};
ghost use Rattle.control_word.specs.Histories.{value};
ghost use Rattle.control_word.specs.Layout.{spot};
ghost use Rattle.control_word.specs.Packing.{IsCellWord};
ghost use Rattle.control_word.specs.declared.model.event.Event.TheVariants.{Leave, WeakLeave};
ghost use Rattle.control_word.specs.declared.model.handle.Kind.TheVariants.{Owner, Weak};
ghost use Rattle.control_block.specs.CellRetries.{IsCounted};
ghost use Rattle.control_block.specs.Leaving.{IsReleasedBy, LetGo, MayLeave, OwesFor, leave_of};
ghost use Rattle.control_block.specs.StepKinds.{HoldingInBlock, Rests, known, tells};
ghost use Rattle.control_block.specs.Rule.{opening_of};

use crate::in_place::InPlace;
use crate::released::Released;
use crate::step_kinds::{GivesBack, Leaves, StepArgs, WeakLeaves};
use crate::steps::{in_hand, words};
use crate::table::{Seat, Table};
use control_word::model::handle::Kind;
use control_word::packed::counts::ONE_FUND;
use control_word::packed::layout::{OWNERS, WEAKS, block_word};
use control_word::shape::CELL_FUNDS;
use control_word::{Block, Handle, PackedCell};

/// One owner less ([util.smartptr.shared.dest]). Of the last one the object ends in the desk's hands, and its value
/// stays where it is: the slot is taken at the leave, so that the value is known, and given back by a look.
fn leave_owner<V: Drop, M: StepArgs>(
    table: &Table<V>,
    seat: &mut Seat<V>,
    block: Block,
    funds: u32,
) -> Option<InPlace<V>>
    requires table { seat.old.table_id ≡ table.now.table_id }
    requires word { (0 < block.0) × (block.0 ≤ table.now.table_id.slots)
        × (spot block.0 0 < table.now.table_id.words) }
    requires may { (M.block ≡ block) × MayLeave seat.old.me Owner M.object M.place block.0 funds }
    ensures seat { (seat.new.table_id ≡ seat.old.table_id) × (seat.new.id ≡ seat.old.id)
        × (seat.new.me.1 ≡ []) }
    ensures event { tells (Leave (owner M.object M.place) (is_some result)) seat.old.me.0 seat.new.me.0 }
    ensures value { IfSome result
        (λ x. value (opening_of seat.old.me.0.shape) seat.new.me.0.view.seen M.object ≡ Some x) }
{
    let word = block_word(block, OWNERS);
    let all = u64::from(funds) * ONE_FUND + 1;
    let found = words::fetch_sub::<V, Leaves<M>>(table, seat, word, all);
    if found != all {
        return None;
    }
    let value = in_hand::remember(table, seat, block);
    words::load::<V, GivesBack>(table, seat, word);
    Some(value)
}

/// One weak handle less ([util.smartptr.weak.dest]). True where the block is vacant now.
fn leave_weak<V, M: StepArgs>(
    table: &Table<V>,
    seat: &mut Seat<V>,
    block: Block,
    funds: u32,
) -> bool
    requires table { seat.old.table_id ≡ table.now.table_id }
    requires word { (0 < block.0) × (spot block.0 1 < table.now.table_id.words) }
    requires may { MayLeave seat.old.me Weak M.object M.place block.0 funds }
    ensures seat { (seat.new.table_id ≡ seat.old.table_id) × (seat.new.id ≡ seat.old.id)
        × (seat.new.me.1 ≡ seat.old.me.1) }
    ensures event { tells (WeakLeave (weak_of M.object M.place) result) seat.old.me.0 seat.new.me.0 }
{
    let all = u64::from(funds) * ONE_FUND + 1;
    words::fetch_sub::<V, WeakLeaves<M>>(table, seat, block_word(block, WEAKS), all) == all
}

/// Leave: one handle less, and with it the funds that it has: all of them, or if it came out of a cell those that were
/// not taken.
#[inline]
pub fn leave<V: Drop, M: StepArgs>(
    table: &Table<V>,
    seat: &mut Seat<V>,
    of: Handle,
    funds: u32,
) -> Released<V>
    requires table { seat.old.table_id ≡ table.now.table_id }
    requires count { IsCounted of.kind of.block table.now.table_id × (of.block.0 ≤ table.now.table_id.slots) }
    requires may { (M.block ≡ of.block) × MayLeave seat.old.me of.kind M.object M.place of.block.0 funds }
    ensures seat { (seat.new.table_id ≡ seat.old.table_id) × (seat.new.id ≡ seat.old.id)
        × (seat.new.me.1 ≡ []) }
    ensures event { tells (leave_of of.kind (handle of.kind (Some M.object) M.place) result)
        seat.old.me.0 seat.new.me.0 }
    ensures kind { IsReleasedBy of.kind result }
    ensures value { IfSome result.value
        (λ x. value (opening_of seat.old.me.0.shape) seat.new.me.0.view.seen M.object ≡ Some x) }
{
    match of.kind {
        Kind::Owner => Released {
            value: leave_owner::<V, M>(table, seat, of.block, funds),
            vacant: false,
        },
        Kind::Weak => Released {
            value: None,
            vacant: leave_weak::<V, M>(table, seat, of.block, funds),
        },
    }
}

/// What came out of a cell leaves, with its funds that were not taken; an empty handle by no step.
#[inline]
pub fn let_go<V: Drop, M: StepArgs>(
    table: &Table<V>,
    seat: &mut Seat<V>,
    kind: Kind,
    out: PackedCell,
) -> Released<V>
    requires table { seat.old.table_id ≡ table.now.table_id }
    requires cell { IsCellWord out }
    requires meant { (M.place ≡ out.place)
        × IfSome out.owned (λ b. (M.block ≡ b) × (M.object ≡ (known seat.old.me.0).latest b.0)) }
    requires count { IfSome out.owned
        (λ b. IsCounted kind b table.now.table_id × (b.0 ≤ table.now.table_id.slots)) }
    requires owes { OwesFor kind out seat.old.me }
    requires holds { IfSome out.owned (λ b. HoldingInBlock seat.old.me.0 kind M.object M.place b.0) }
    ensures seat { (seat.new.table_id ≡ seat.old.table_id)
        × (seat.new.id ≡ seat.old.id) × Rests seat.new.me }
    ensures gone { LetGo kind seat.old.me.0 out.owned out.place result seat.new.me.0 }
{
    let Some(block) = out.owned() else {
        return Released::nothing();
    };
    let of = Handle {
        kind,
        block,
        place: out.place(),
    };
    let left = CELL_FUNDS.saturating_sub(out.taken());
    leave::<V, M>(table, seat, of, left)
}
