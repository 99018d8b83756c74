//! Acts that take something into the hand, which is vacant before. The desk has room for a handle, and each name has
//! one of the kind that the act asks for: so the table refuses only what is told.
ghost use Rattle.std.specs.Prelude.{◌≡◌, ◌≢◌, ◌+◌, ◌<◌, true, false, slice_get, Some};
ghost use Rattle.control_word.specs.declared.model.handle.Kind.{Kind};
ghost use Rattle.control_word.specs.declared.model.handle.Kind.TheVariants as kind;
ghost use Rattle.script_runner.specs.SlotCalls.{IsBelow};
ghost use Rattle.step_threads.specs.declared.programs.act.Act.TheVariants as act;
ghost use Rattle.step_table.specs.AtomicSteps.{aliased as alias_place};
ghost use Rattle.script_runner.specs.Deals.{IsActed};
ghost use Rattle.script_runner.specs.Kinds.{HasKind, TakesKind};
ghost use Rattle.script_runner.specs.Seats.{IsHand};

use crate::acts::act_result::{ActResult, refused};
use crate::table::{Home, WorkerTable};
use crate::workers::seats::empty;
use control_word::{Place, Refusal};
use std::sync::Wait;
use step_core::{Answer, Field, Kind};

/// A copy of what a name holds.
pub(crate) fn share<H: Home>(
    table: &mut WorkerTable<'_, u64, H>,
    hand: usize,
    name: u8,
) -> ActResult
    requires hand { IsHand (hand + 1) hand table.old }
    requires name { name < hand }
    requires below { IsBelow table.old.desk }
    requires kind { (k : Kind) × HasKind table.old.slots name k }
    ensures acts { IsActed hand table.old false (act.Share name) result table.new }
    ensures kinds { (k : Kind) → HasKind table.old.slots name k
        → TakesKind hand k result.taken table.old table.new }
{
    table.copy(usize::from(name), hand);
    ActResult {
        taken: true,
        answer: None,
        ended: None,
    }
}

/// A weak handle of the object of what a name holds.
pub(crate) fn downgrade<H: Home>(
    table: &mut WorkerTable<'_, u64, H>,
    hand: usize,
    name: u8,
) -> ActResult
    requires hand { IsHand (hand + 1) hand table.old }
    requires name { name < hand }
    requires below { IsBelow table.old.desk }
    requires kind { HasKind table.old.slots name kind.Owner }
    ensures acts { IsActed hand table.old false (act.Downgrade name) result table.new }
    ensures kinds { TakesKind hand kind.Weak result.taken table.old table.new }
{
    table.downgrade(usize::from(name), hand);
    ActResult {
        taken: true,
        answer: None,
        ended: None,
    }
}

/// What a name holds, which becomes empty.
pub(crate) fn move_out<H: Home>(
    table: &mut WorkerTable<'_, u64, H>,
    hand: usize,
    kinds: &Vec<Kind>,
    name: u8,
) -> ActResult
    requires hand { IsHand (hand + 1) hand table.old }
    requires name { name < hand }
    requires below { IsBelow table.old.desk }
    requires kind { (k : Kind) × (slice_get kinds.now.items name ≡ Some k)
        × HasKind table.old.slots name k }
    ensures acts { IsActed hand table.old false (act.Move name) result table.new }
    ensures kinds { (k : Kind) → HasKind table.old.slots name k
        → TakesKind hand k result.taken table.old table.new }
{
    table.move_to(usize::from(name), hand);
    empty(table, kinds, usize::from(name));
    ActResult {
        taken: true,
        answer: None,
        ended: None,
    }
}

/// The place of a field in the block into which a pointer points; null where it does, or no field is named.
fn aliased(place: Option<Place>, field: Option<Field>) -> Option<Place>
    ensures { result ≡ alias_place field place }
{
    match field {
        None => None,
        Some(field) => match place {
            None => None,
            Some(place) => Some(Place {
                block: place.block,
                field: field.number(),
            }),
        },
    }
}

/// A pointer that shares what a name owns, and points at a field of what another points into.
pub(crate) fn alias<H: Home>(
    table: &mut WorkerTable<'_, u64, H>,
    hand: usize,
    name: u8,
    of: u8,
    field: Option<Field>,
) -> ActResult
    requires hand { IsHand (hand + 1) hand table.old }
    requires name { (name < hand) × (of < hand) }
    requires below { IsBelow table.old.desk }
    requires kind { HasKind table.old.slots name kind.Owner × HasKind table.old.slots of kind.Owner }
    ensures acts { IsActed hand table.old false (act.Alias name of field) result table.new }
    ensures kinds { TakesKind hand kind.Owner result.taken table.old table.new }
{
    let place = table.place(usize::from(of));
    table.alias(usize::from(name), aliased(place, field), hand);
    ActResult {
        taken: true,
        answer: None,
        ended: None,
    }
}

/// An owner of what a weak name watches, if one is left; or else an empty one.
pub(crate) fn lock<H: Home, R: Wait>(
    rt: &R,
    table: &mut WorkerTable<'_, u64, H>,
    hand: usize,
    name: u8,
) -> ActResult
    requires hand { IsHand (hand + 1) hand table.old }
    requires name { name < hand }
    requires below { IsBelow table.old.desk }
    requires kind { HasKind table.old.slots name kind.Weak }
    ensures acts { IsActed hand table.old false (act.Lock name false) result table.new }
    ensures kinds { TakesKind hand kind.Owner result.taken table.old table.new }
{
    let got = table.lock(rt, usize::from(name), hand);
    ActResult {
        taken: true,
        answer: Some(Answer::Locked(got)),
        ended: None,
    }
}

/// An owner of what a weak name watches; it is refused where none is left.
pub(crate) fn upgrade<H: Home, R: Wait>(
    rt: &R,
    table: &mut WorkerTable<'_, u64, H>,
    hand: usize,
    name: u8,
) -> ActResult
    requires hand { IsHand (hand + 1) hand table.old }
    requires name { name < hand }
    requires below { IsBelow table.old.desk }
    requires kind { HasKind table.old.slots name kind.Weak }
    ensures acts { IsActed hand table.old false (act.Lock name true) result table.new }
    ensures kinds { TakesKind hand kind.Owner result.taken table.old table.new }
{
    if table.upgrade(rt, usize::from(name), hand) {
        return ActResult {
            taken: true,
            answer: Some(Answer::Upgraded),
            ended: None,
        };
    }
    refused(Refusal::BadWeak)
}

/// A pointer from the object that a name owns and points into.
fn shared_this<H: Home>(table: &mut WorkerTable<'_, u64, H>, hand: usize, name: u8) -> ActResult
    requires hand { IsHand (hand + 1) hand table.old }
    requires name { name < hand }
    requires below { IsBelow table.old.desk }
    requires kind { HasKind table.old.slots name kind.Owner }
    ensures acts { IsActed hand table.old false (act.FromThis name kind.Owner) result table.new }
    ensures kinds { TakesKind hand kind.Owner result.taken table.old table.new }
{
    match table.shared_from_this(usize::from(name), hand) {
        Ok(()) => ActResult {
            taken: true,
            answer: None,
            ended: None,
        },
        Err(why) => refused(why),
    }
}

/// And a weak one.
fn weak_this<H: Home>(table: &mut WorkerTable<'_, u64, H>, hand: usize, name: u8) -> ActResult
    requires hand { IsHand (hand + 1) hand table.old }
    requires name { name < hand }
    requires below { IsBelow table.old.desk }
    requires kind { HasKind table.old.slots name kind.Owner }
    ensures acts { IsActed hand table.old false (act.FromThis name kind.Weak) result table.new }
    ensures kinds { TakesKind hand kind.Weak result.taken table.old table.new }
{
    match table.weak_from_this(usize::from(name), hand) {
        Ok(()) => ActResult {
            taken: true,
            answer: None,
            ended: None,
        },
        Err(why) => refused(why),
    }
}

/// A pointer of either kind.
pub(crate) fn from_this<H: Home>(
    table: &mut WorkerTable<'_, u64, H>,
    hand: usize,
    name: u8,
    which: Kind,
) -> ActResult
    requires hand { IsHand (hand + 1) hand table.old }
    requires name { name < hand }
    requires below { IsBelow table.old.desk }
    requires kind { HasKind table.old.slots name kind.Owner }
    ensures acts { IsActed hand table.old false (act.FromThis name which) result table.new }
    ensures kinds { TakesKind hand which result.taken table.old table.new }
{
    match which {
        Kind::Owner => shared_this(table, hand, name),
        Kind::Weak => weak_this(table, hand, name),
    }
}
