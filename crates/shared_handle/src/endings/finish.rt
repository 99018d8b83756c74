//! What an object that ends still gives, and its end.
ghost use Rattle.std.specs.Prelude.{◌≡◌, ◌≢◌, ◌↔◌, ℕ, ◌+◌, ◌<◌, Bool, IsTrue, cond, true, false};
ghost use Rattle.std.specs.Prelude.{length, slice_index, Err, IfErr, IfOk, OnOk, Some};
ghost use Rattle.control_word.specs.declared.model.event.Event.TheVariants.{Finish};
ghost use Rattle.control_word.specs.declared.model.handle.Kind.TheVariants.{Weak};
ghost use Rattle.control_word.specs.Histories.{value};
ghost use Rattle.control_block.specs.Rule.{opening_of};
ghost use Rattle.control_block.specs.Desks.{Belongs, AddsEvent, IsEnding, IsSameDesk, Keeps, KeepsOtherEndings};
ghost use Rattle.control_block.specs.Desks.{allowance_of, bag_of, endings_of, held_of, latest_of, object_in, stock_of};
ghost use Rattle.shared_handle.specs.Calls.{IsOfThis, SharesWeakly};
ghost use Rattle.control_block.specs.CellCalls.{HoldsHandle, with_handle};
ghost use Rattle.shared_handle.specs.Endings.{EndsInHand, IsAllClear, IsOfShape, IsUncleared, WhyNoWeakThis};

use crate::endings::Ending;
use control_block::desk::Desk;
use control_block::domain::Domain;
use control_block::handles::Shared;
use control_block::in_place::InPlace;
use control_block::{calls, handles};
use control_word::{Block, HandleWord, Place, Refusal};

impl<V: Drop> Ending<V> {
    /// The object's four fields (own).
    pub fn fields(&self, domain: &Domain<V>, desk: &mut Desk<V>) -> [u64; 4]
        requires domain { Belongs desk.old domain.now }
        requires ends { EndsInHand desk.old self.now }
        ensures fields { (k : ℕ) → k < 4
            → slice_index result k ≡ slice_index (object_in desk.old self.now.block.0).fields k }
        ensures same { desk.new ≡ desk.old }
    {
        calls::fields(domain, desk, self.block)
    }

    /// Whether it is the end of an owned null pointer ([util.smartptr.shared.const]).
    pub fn is_null(&self, domain: &Domain<V>, desk: &mut Desk<V>) -> bool
        requires domain { Belongs desk.old domain.now }
        requires ends { EndsInHand desk.old self.now }
        ensures null { result ≡ (object_in desk.old self.now.block.0).null }
        ensures same { desk.new ≡ desk.old }
    {
        calls::is_null(domain, desk, self.block)
    }

    /// An object that begins to end: no member is cleared yet.
    #[inline(always)]
    pub(crate) fn begin(domain: &Domain<V>, block: Block, value: InPlace<V>) -> Self
        ensures { (result.block ≡ block) × (result.value ≡ value) × IsUncleared result
            × IsOfShape domain.now.shape result }
    {
        Self {
            block,
            value,
            members: domain.members(),
            cleared: 0,
        }
    }

    /// Whether all members are cleared (own).
    #[inline(always)]
    pub fn is_clear(&self) -> bool
        ensures { IsTrue result ↔ IsAllClear self.now }
    {
        self.cleared == self.members
    }

    /// No owner comes of an object that ends ([util.smartptr.enab], [util.smartptr.weak.bad]): it is refused
    /// `NotEnabled` where the object has no from-this flag, and else `BadWeak`. Nothing changes.
    pub fn shared_from_this(
        &self,
        domain: &Domain<V>,
        desk: &mut Desk<V>,
    ) -> Result<Shared, Refusal>
        requires domain { Belongs desk.old domain.now }
        requires ends { EndsInHand desk.old self.now }
        ensures refused { result
            ≡ Err (cond (object_in desk.old self.now.block.0).enabled Refusal.BadWeak Refusal.NotEnabled) }
        ensures same { desk.new ≡ desk.old }
    {
        if calls::is_enabled(domain, desk, self.block) {
            Err(Refusal::BadWeak)
        } else {
            Err(Refusal::NotEnabled)
        }
    }

    /// A weak handle of the object, which is expired, and points at its field 0 ([util.smartptr.enab]). It is refused
    /// `Limit` just where the desk is at its allowance, and else `NotEnabled` just where the object has no from-this
    /// flag; then nothing changes.
    pub fn weak_from_this(
        &self,
        domain: &Domain<V>,
        desk: &mut Desk<V>,
    ) -> Result<handles::Weak, Refusal>
        requires domain { Belongs desk.old domain.now }
        requires ends { EndsInHand desk.old self.now }
        ensures refused { IfErr result (λ why. WhyNoWeakThis desk.old self.now.block why × (desk.new ≡ desk.old)) }
        ensures may { OnOk result
            ((held_of desk.old ≢ allowance_of desk.old) × ((object_in desk.old self.now.block.0).enabled ≡ true)) }
        ensures handle { IfOk result (λ h. (h.block ≡ Some self.now.block) × IsOfThis h.block h.place) }
        ensures event { IfOk result (λ h. SharesWeakly desk.old h.block h.place desk.new) }
        ensures bag { IfOk result (λ h. bag_of desk.new ≡ with_handle Weak h.block h.place (bag_of desk.old)) }
        ensures held { OnOk result (desk.new.held ≡ desk.old.held + 1) }
        ensures holds { IfOk result (λ h. HoldsHandle desk.new Weak h.block h.place) }
        ensures keeps { OnOk result (Keeps desk.old desk.new) }
    {
        if desk.held() == desk.allowance() {
            return Err(Refusal::Limit);
        }
        if !calls::is_enabled(domain, desk, self.block) {
            return Err(Refusal::NotEnabled);
        }
        let block = self.block;
        let place = Some(Place { block, field: 0 });
        calls::share_weak(domain, desk, block, HandleWord::of(Some(block), place))
    }

    /// The end ([util.smartptr.shared.dest]). Condition: all members were cleared. The value comes out, which is
    /// the one that the object was made with, as the visits left it, and dropping it is the deleter's call. Where no
    /// weak handle is left, the block is vacant, and in the desk's store. It refuses nothing.
    #[inline(always)]
    pub fn finish(self, domain: &Domain<V>, desk: &mut Desk<V>) -> V
        requires domain { Belongs desk.old domain.now }
        requires ends { EndsInHand desk.old self }
        requires clear { IsAllClear self }
        ensures value { (result ≡ self.value)
            × (value (opening_of desk.old.shape) desk.old.seen (latest_of desk.old self.block.0) ≡ Some result) }
        ensures event { (vacant : Bool) × AddsEvent desk.old (Finish (latest_of desk.old self.block.0) vacant result)
            desk.new × (length (stock_of desk.new) ≡ length (stock_of desk.old) + cond vacant 1 0) }
        ensures bag { bag_of desk.new ≡ bag_of desk.old }
        ensures held { desk.new.held ≡ desk.old.held }
        ensures desk { IsSameDesk desk.old desk.new }
        ensures endings { KeepsOtherEndings desk.old self.block.0 desk.new }
        ensures count { endings_of desk.new + 1 ≡ endings_of desk.old }
    {
        let Self {
            block,
            value: _,
            members: _,
            cleared: _,
        } = self;
        let (value, _) = calls::finish(domain, desk, block);
        value
    }

    /// Gives the ending up (own), and answers its block. A clear may hand out one ending more, and how long a chain is
    /// that ends so isn't known before, since other desks may lengthen it meanwhile: a caller whose loop is counted, so
    /// that it ends without a wait, can be left with an ending after its last round. The object stays ending in its
    /// desk's hands, and its place of the allowance taken, as a handle that is forgotten stays counted; its block isn't
    /// used again, and its value is dropped with the census.
    pub fn forget(self) -> Block
        ensures { result ≡ self.block }
    {
        let Self {
            block,
            value: _,
            members: _,
            cleared: _,
        } = self;
        block
    }
}
