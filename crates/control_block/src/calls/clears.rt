//! A call of a desk on the members of an object that ends in its hands, for the crate above. What a member holds comes
//! out and leaves: the place that the desk keeps free while an object ends there is for it.
ghost use Rattle.std.specs.Prelude.{◌≡◌, ◌≢◌, ℕ, ◌+◌, ◌<◌, cond, is_some, false, length, true};
ghost use Rattle.control_word.specs.Handles.{empty};
ghost use Rattle.control_word.specs.State.{kind_of_member};
ghost use Rattle.control_word.specs.declared.model.event.Event.TheVariants.{ClearMember};
ghost use Rattle.control_block.specs.Clearing.{Empties};
ghost use Rattle.control_block.specs.Desks.{AddsEvent, Belongs, IsCleared, IsEnding, IsSameDesk, KeepsOtherEndings};
ghost use Rattle.control_block.specs.Desks.{bag_of, endings_of, latest_of, member_in, stock_of};
ghost use Rattle.control_block.specs.Leaving.{IsReleasedBy};
ghost use Rattle.control_block.specs.Rule.{members_of};

use crate::calls::put_by_out;
use crate::cell_calls::Content;
use crate::desk::Desk;
use crate::domain::Domain;
use crate::released::Released;
use crate::steps::clears;
use control_word::Block;
use control_word::model::handle::Kind;
use std::marker::Brand;

/// A member, by its number, of an object that ends in the desk's hands is emptied: what it held, of the
/// member's kind, comes out and leaves (own). Where that was an object's last owner ([util.smartptr.shared.dest]), its
/// value is released, and it ends in the desk's hands; a block that is vacant now is in the desk's store.
pub fn clear<V: Drop>(
    domain: &Domain<V>,
    desk: &mut Desk<V>,
    block: Block,
    member: u8,
    kind: Kind,
) -> (Content, Released<V>)
    requires domain { Belongs desk.old domain.now }
    requires ending { (x : V) × IsEnding desk.old block.0 x }
    requires member { (member < members_of desk.old.shape) × (kind_of_member desk.old.shape.owners member ≡ kind) }
    ensures emptied { Empties kind desk.old block.0 member result.0.word.block result.0.word.place result.1 desk.new }
    ensures kind { IsReleasedBy kind result.1 }
    ensures bag { bag_of desk.new ≡ bag_of desk.old }
    ensures held { desk.new.held ≡ desk.old.held }
    ensures cleared { IsCleared desk.new block.0 member }
    ensures kept { (m : ℕ) → m ≢ member → member_in desk.new block.0 m ≡ member_in desk.old block.0 m }
    ensures ending { (x : V) → IsEnding desk.old block.0 x → IsEnding desk.new block.0 x }
    ensures endings { KeepsOtherEndings desk.old block.0 desk.new }
    ensures desk { IsSameDesk desk.old desk.new }
    ensures stock { length (stock_of desk.new) ≡ length (stock_of desk.old) + cond result.1.vacant 1 0 }
    ensures count { endings_of desk.new ≡ endings_of desk.old + cond (is_some result.1.value) 1 0 }
{
    let table = &domain.table.shared;
    let seat = &mut desk.seat;
    let (out, released) = clears::clear::<V, Brand>(table, seat, block, member, kind);
    desk.endings += u32::from(released.value.is_some());
    put_by_out(&mut desk.store, out, released.vacant);
    let content = Content {
        kind,
        word: out.handle(),
    };
    (content, released)
}

/// A member, by its number, of an object that ends in the desk's hands is cleared by a look, just where it held nothing
/// then (own): whether it was. Else nothing changes.
#[inline(always)]
pub fn clear_empty<V: Drop>(
    domain: &Domain<V>,
    desk: &mut Desk<V>,
    block: Block,
    member: u8,
) -> bool
    requires domain { Belongs desk.old domain.now }
    requires ending { (x : V) × IsEnding desk.old block.0 x }
    requires member { member < members_of desk.old.shape }
    ensures event { result ≡ true → AddsEvent desk.old (ClearMember (latest_of desk.old block.0) member
        (empty (kind_of_member desk.old.shape.owners member))) desk.new }
    ensures same { result ≡ false → desk.new ≡ desk.old }
    ensures cleared { result ≡ true → IsCleared desk.new block.0 member }
    ensures bag { bag_of desk.new ≡ bag_of desk.old }
    ensures held { desk.new.held ≡ desk.old.held }
    ensures kept { (m : ℕ) → m ≢ member → member_in desk.new block.0 m ≡ member_in desk.old block.0 m }
    ensures ending { (x : V) → IsEnding desk.old block.0 x → IsEnding desk.new block.0 x }
    ensures endings { KeepsOtherEndings desk.old block.0 desk.new }
    ensures desk { IsSameDesk desk.old desk.new }
    ensures stock { length (stock_of desk.new) ≡ length (stock_of desk.old) }
    ensures count { endings_of desk.new ≡ endings_of desk.old }
{
    clears::is_empty::<V, Brand>(&domain.table.shared, &mut desk.seat, block, member)
}
