//! Owners.
ghost use Rattle.std.specs.Fn.{FnOnceReturnsAtMut};
ghost use Rattle.std.specs.Prelude.{◌≡◌, ◌≢◌, ◌⊎◌, ◌↔◌, IfErr, IfOk, IsTrue, None, Ok, Some};
ghost use Rattle.control_block.specs.Desks.{Belongs};
ghost use Rattle.control_word.specs.declared.model.handle.Kind.TheVariants as kind;
ghost use Rattle.shared_handle.specs.Calls as calls;
ghost use Rattle.shared_handle.specs.Visits.{IsVisit};
ghost use Rattle.pointers.specs.Faults.{WhyNoMore, WhyNoThis, WhyNot, WhyNotVisited};
ghost use Rattle.pointers.specs.HandCalls.{CameAsCopy, CameAsWeak};
ghost use Rattle.pointers.specs.Known.{AreOfOne, Since, owned, pointed};
ghost use Rattle.pointers.specs.Objects.{IsCounted, IsField, WhyNoField, number_of_block};
ghost use Rattle.pointers.specs.Values.{IsCopied};

use crate::claim::shared_claim::SharedClaim;
use crate::desk::Desk;
use crate::domain::Domain;
use crate::fault::Fault;
use crate::fault::call::Call;
use crate::weak::Weak;
use control_word::shape::MOST_BLOCKS;
use control_word::{Block, Place};
use std::marker::Model;
use std::sync::Wait;

pub(crate) mod cells;
mod ends;
pub mod optional;

/// An owner of an object, in C++ `shared_ptr`, in Rust `Arc`.
pub struct Shared<'t, D: Domain> {
    pub(crate) desk: &'t Desk<'t, D>,
    pub(crate) owner: SharedClaim<D>,
}

impl<'t, D: Domain> Model for Shared<'t, D> {
    ghost use Rattle.control_block.specs.contracts.handles.Shared as shared_handle;
    ghost use Rattle.control_block.specs.contracts.handles.Weak as weak_handle;
    ghost use Rattle.std.specs.Coded.{codes};
    ghost use Rattle.pointers.specs.declared.known.Known.{Known};

    ghost Value = { Known D.Value };

    ghost coded = { Prim.hlevel (codes, shared_handle.the_row.coded, weak_handle.the_row.coded) };

    ghost view = { λ s. s.owner.known };
}

impl<'t, D: Domain> Drop for Shared<'t, D> {
    #[inline(always)]
    fn drop(self) {
        let Self { desk, owner } = self;
        desk.let_go(owner);
    }
}

impl<'t, D: Domain> Shared<'t, D> {
    /// The desk that it comes from.
    #[inline(always)]
    pub fn desk(&self) -> &'t Desk<'t, D>
        ensures { Belongs D.opened result.now.domain.now }
    {
        self.desk
    }

    /// One owner more, in C++ a copy ([util.smartptr.shared.const]), in Rust `Arc::clone`.
    #[inline(always)]
    pub fn share(&self) -> Result<Shared<'t, D>, Fault>
        ensures one { IfOk result (AreOfOne D.opened self.now) }
        ensures place { IfOk result (λ r. pointed r ≡ pointed self.now) }
        ensures came { IfOk result (CameAsCopy D.opened self.now) }
        ensures fault { IfErr result (WhyNoMore D.opened (Some self.now) Call.Share) }
    {
        let desk = self.desk;
        match desk.open(Call::Share)?.share(desk.domain, &self.owner) {
            Ok(owner) => Ok(Shared { desk, owner }),
            Err(why) => Err(Fault::of(Call::Share, why)),
        }
    }

    /// An owner of the same object that points elsewhere, or nowhere, in C++ the aliasing constructor
    /// ([util.smartptr.shared.const]). `Place` where the place is none of a block's fields.
    #[inline(always)]
    pub fn alias(&self, place: Option<Place>) -> Result<Shared<'t, D>, Fault>
        ensures one { IfOk result (AreOfOne D.opened self.now) }
        ensures place { IfOk result (λ r. pointed r ≡ place) }
        ensures came { IfOk result (CameAsCopy D.opened self.now) }
        ensures fault { IfErr result (λ why. WhyNoMore D.opened (Some self.now) Call.Alias why
            ⊎ ((why ≡ Fault.Place Call.Alias) × (calls.pointed place ≢ place))) }
    {
        if !is_pointer(place) {
            return Err(Fault::Place(Call::Alias));
        }
        let desk = self.desk;
        match desk
            .open(Call::Alias)?
            .alias(desk.domain, &self.owner, place)
        {
            Ok(owner) => Ok(Shared { desk, owner }),
            Err(why) => Err(Fault::of(Call::Alias, why)),
        }
    }

    /// A weak pointer to the object, in C++ `weak_ptr(shared_ptr)` ([util.smartptr.weak.const]).
    #[inline(always)]
    pub fn downgrade(&self) -> Result<Weak<'t, D>, Fault>
        ensures one { IfOk result (AreOfOne D.opened self.now) }
        ensures place { IfOk result (λ r. pointed r ≡ calls.weak_place (owned self.now) (pointed self.now)) }
        ensures came { IfOk result (CameAsWeak D.opened self.now) }
        ensures fault { IfErr result (WhyNoMore D.opened (Some self.now) Call.Downgrade) }
    {
        let desk = self.desk;
        match desk
            .open(Call::Downgrade)?
            .downgrade(desk.domain, &self.owner)
        {
            Ok(weak) => Ok(Weak { desk, weak }),
            Err(why) => Err(Fault::of(Call::Downgrade, why)),
        }
    }

    /// An owner that the object gives of itself, in C++ `p->shared_from_this()` ([util.smartptr.enab]).
    /// `Refused(_, NotEnabled)` where the object was not made so.
    #[inline(always)]
    pub fn shared_from_this(&self) -> Result<Shared<'t, D>, Fault>
        ensures one { IfOk result (AreOfOne D.opened self.now) }
        ensures place { IfOk result (λ r. calls.IsOfThis (owned self.now) (pointed r)) }
        ensures fault { IfErr result (WhyNot Call.SharedFromThis (WhyNoThis D.opened self.now)) }
    {
        let desk = self.desk;
        match desk
            .open(Call::SharedFromThis)?
            .shared_from_this(desk.domain, &self.owner)
        {
            Ok(owner) => Ok(Shared { desk, owner }),
            Err(why) => Err(Fault::of(Call::SharedFromThis, why)),
        }
    }

    /// The same with a weak pointer, in C++ `p->weak_from_this()`.
    #[inline(always)]
    pub fn weak_from_this(&self) -> Result<Weak<'t, D>, Fault>
        ensures one { IfOk result (AreOfOne D.opened self.now) }
        ensures place { IfOk result (λ r. calls.IsOfThis (owned self.now) (pointed r)) }
        ensures fault { IfErr result (WhyNot Call.WeakFromThis (WhyNoThis D.opened self.now)) }
    {
        let desk = self.desk;
        match desk
            .open(Call::WeakFromThis)?
            .weak_from_this(desk.domain, &self.owner)
        {
            Ok(weak) => Ok(Weak { desk, weak }),
            Err(why) => Err(Fault::of(Call::WeakFromThis, why)),
        }
    }

    /// The field that it points at, in C++ `*p` of a field: the one that the object was made with.
    /// `Refused(Read, Null)` where it points nowhere, `Refused(Read, Outside)` where that is another object than it
    /// owns.
    #[inline(always)]
    pub fn read(&self) -> Result<u64, Fault>
        ensures field { IfOk result (IsField D.opened self.now) }
        ensures fault { IfErr result (WhyNot Call.Read (WhyNoField self.now)) }
    {
        let desk = self.desk;
        match desk.open(Call::Read)?.read(desk.domain, &self.owner) {
            Ok(field) => Ok(field),
            Err(why) => Err(Fault::of(Call::Read, why)),
        }
    }

    /// Where it points, in C++ `get()` ([util.smartptr.shared.obs]): a block and a field, or nowhere.
    #[inline(always)]
    pub fn place(&self) -> Option<Place>
        ensures { result ≡ pointed self.now }
    {
        self.owner.place()
    }

    /// How many owners the object has, in C++ `use_count()` ([util.smartptr.shared.obs]).
    #[inline(always)]
    pub fn use_count(&self) -> Result<u32, Fault>
        ensures count { IfOk result (λ n. Since D.opened self.now
            (λ d e. IsCounted d kind.Owner (owned self.now) (pointed self.now) n e)) }
        ensures fault { IfErr result (λ why. why ≡ Fault.Busy Call.UseCount) }
    {
        let desk = self.desk;
        Ok(
            desk.open(Call::UseCount)?
                .use_count(desk.domain, &self.owner),
        )
    }

    /// Whether both own one object, in C++ neither `owner_before` the other, in Rust `Arc::ptr_eq`.
    #[inline(always)]
    pub fn is(&self, other: &Shared<'t, D>) -> bool
        ensures { IsTrue result ↔ (owned self.now ≡ owned other.now) }
    {
        self.owner.block() == other.owner.block()
    }

    /// Whether both point at one place, whatever they own, in C++ `==` ([util.smartptr.shared.cmp]).
    #[inline(always)]
    pub fn same_place(&self, other: &Shared<'t, D>) -> bool
        ensures { IsTrue result ↔ (pointed self.now ≡ pointed other.now) }
    {
        self.owner.place() == other.owner.place()
    }

    /// Whether what it owns comes before what the other owns, in C++ `owner_before` ([util.smartptr.shared.obs]).
    #[inline(always)]
    pub fn owner_before(&self, other: &Shared<'t, D>) -> bool
        ensures { result ≡ calls.comes_before (owned self.now) (owned other.now) }
    {
        comes_before(self.owner.block(), other.owner.block())
    }

    /// The same beside a weak pointer.
    #[inline(always)]
    pub fn owner_before_weak(&self, other: &Weak<'t, D>) -> bool
        ensures { result ≡ calls.comes_before (owned self.now) (owned other.now) }
    {
        comes_before(self.owner.block(), other.weak.block())
    }

    /// Work on the object's value, in C++ `p->f()` (waits). Another visit of it waits meanwhile; calls on this desk
    /// within `f` are refused `Busy`, and pointers that are dropped there let go when it is done. `Memory` where there
    /// is none to list them, before `f` is called.
    #[inline(always)]
    pub fn visit<A, F: FnOnce(&mut D::Value) -> A + Drop, R: Wait>(
        &self,
        rt: &R,
        f: F,
    ) -> Result<A, Fault>
        requires { F.IsAlwaysCallable f }
        ensures done { IfOk result (λ a. Since D.opened self.now
            (λ d e. IsVisit (λ was r becomes. FnOnceReturnsAtMut F.FnOnce f was r becomes) f d (owned self.now)
            (pointed self.now) (Ok a) e)) }
        ensures fault { IfErr result (WhyNotVisited self.now) }
    {
        let desk = self.desk;
        let mut context = desk.open(Call::Visit)?;
        desk.make_room(context.held())?;
        let done = context.visit(rt, desk.domain, &self.owner, f);
        drop(context);
        desk.catch_up();
        match done {
            Ok(answer) => Ok(answer),
            Err(refused) => Err(Fault::of(Call::Visit, refused.why)),
        }
    }

    /// A copy of the object's value, taken in a short visit and read outside of it (waits). `Memory` where its clone
    /// asks for memory and there is none.
    pub fn snapshot<R: Wait>(&self, rt: &R) -> Result<D::Value, Fault>
    where
        D::Value: Clone,
        ensures copy { IfOk result (IsCopied D.opened D.Value.is_clone self.now) }
        ensures fault { IfErr result (WhyNotVisited self.now) }
    {
        match self.visit(rt, |value| value.clone())? {
            Ok(value) => Ok(value),
            Err(_) => Err(Fault::Memory),
        }
    }
}

/// Whether a place is nowhere or a field of a block.
#[inline(always)]
fn is_pointer(place: Option<Place>) -> bool
    ensures { IsTrue result ↔ (calls.pointed place ≡ place) }
{
    match place {
        None => true,
        Some(place) => {
            let block = place.block.number();
            block > 0 && block <= MOST_BLOCKS && place.field < 4
        }
    }
}

/// Owner order goes by blocks, none first.
#[inline(always)]
pub(crate) fn comes_before(one: Option<Block>, other: Option<Block>) -> bool
    ensures { result ≡ calls.comes_before one other }
{
    number_of(one) < number_of(other)
}

/// A block's number, 0 where there is none.
#[inline(always)]
fn number_of(block: Option<Block>) -> u32
    ensures { result ≡ number_of_block block }
{
    match block {
        Some(block) => block.number(),
        None => 0,
    }
}
