//! Calls on cells. Each makes its events, and when it returns nothing is under way: no fund is out, and no load.
ghost use Rattle.std.specs.Prelude.{◌≡◌, ◌↔◌, ◌+◌, IfErr, IfNone, IfOk, IfSome, IsErr};
ghost use Rattle.std.specs.Prelude.{IsNone, OnOk};
ghost use Rattle.control_word.specs.declared.model.event.Event.TheVariants.{Load, Same, Swap};
ghost use Rattle.control_block.specs.Desks.{Belongs, AddsEvent, Keeps, allowance_of, bag_of, held_of};
ghost use Rattle.control_block.specs.CellCalls.{HoldsHandle, IsOpenAt, cell_of_site, handle_in, with_handle};
ghost use Rattle.control_block.specs.CellCalls.{without_handle};
ghost use Rattle.control_block.specs.Outcomes.{Outcome};

use crate::cell_calls::{CellAt, Content};
use crate::desk::Desk;
use crate::domain::Domain;
use crate::step_kinds::cells::CellArgs;
use crate::{retries, steps};
use control_word::packed::layout::site_word;
use control_word::{Refusal, Site};
use std::sync::Wait;

/// A copy of what a cell holds ([util.smartptr.atomic.shared], [util.smartptr.atomic.weak]). It is refused `Limit` just
/// where the desk is at its allowance, and then nothing changes.
#[inline(always)]
pub fn load<V: Drop, A: CellArgs, R: Wait>(
    rt: &R,
    domain: &Domain<V>,
    desk: &mut Desk<V>,
    cell: CellAt,
) -> Result<Content, Refusal>
    requires domain { Belongs desk.old domain.now }
    requires cell { IsOpenAt desk.old cell.site cell.kind × (A.cell ≡ cell_of_site desk.old cell.site) }
    ensures limit { IsErr result ↔ (held_of desk.old ≡ allowance_of desk.old) }
    ensures refused { IfErr result (λ why. (why ≡ Refusal.Limit) × (desk.new ≡ desk.old)) }
    ensures event { IfOk result
        (λ h. AddsEvent desk.old (Load A.cell (handle_in desk.new cell.kind h.word.block h.word.place)) desk.new) }
    ensures bag { IfOk result
        (λ h. bag_of desk.new ≡ with_handle cell.kind h.word.block h.word.place (bag_of desk.old)) }
    ensures held { OnOk result (desk.new.held ≡ desk.old.held + 1) }
    ensures holds { IfOk result (λ h. HoldsHandle desk.new cell.kind h.word.block h.word.place) }
    ensures kind { IfOk result (λ h. h.kind ≡ cell.kind) }
    ensures keeps { OnOk result (Keeps desk.old desk.new) }
{
    if desk.is_full() {
        return Err(Refusal::Limit);
    }
    let table = &domain.table.shared;
    let word = site_word(domain.shape.blocks, cell.site);
    desk.held += 1; // here, since each locked instruction that follows waits for what was stored before it
    let seen = retries::loads::load::<V, A, R>(rt, table, &mut desk.seat, word, cell.kind);
    Ok(Content {
        kind: cell.kind,
        word: seen.handle(),
    })
}

/// One try at the same, which waits for nobody. It answers none where others change the cell meanwhile, where many of
/// its funds are taken, and where the desk is at its allowance; then nothing changes.
#[inline(always)]
pub fn load_once<V: Drop, A: CellArgs>(
    domain: &Domain<V>,
    desk: &mut Desk<V>,
    cell: CellAt,
) -> Option<Content>
    requires domain { Belongs desk.old domain.now }
    requires cell { IsOpenAt desk.old cell.site cell.kind × (A.cell ≡ cell_of_site desk.old cell.site) }
    ensures limit { held_of desk.old ≡ allowance_of desk.old → IsNone result }
    ensures missed { IfNone result (desk.new ≡ desk.old) }
    ensures event { IfSome result
        (λ h. AddsEvent desk.old (Load A.cell (handle_in desk.new cell.kind h.word.block h.word.place)) desk.new) }
    ensures bag { IfSome result
        (λ h. bag_of desk.new ≡ with_handle cell.kind h.word.block h.word.place (bag_of desk.old)) }
    ensures held { IfSome result (λ _. desk.new.held ≡ desk.old.held + 1) }
    ensures holds { IfSome result (λ h. HoldsHandle desk.new cell.kind h.word.block h.word.place) }
    ensures kind { IfSome result (λ h. h.kind ≡ cell.kind) }
    ensures keeps { IfSome result (λ _. Keeps desk.old desk.new) }
{
    if desk.is_full() {
        return None;
    }
    let table = &domain.table.shared;
    let word = site_word(domain.shape.blocks, cell.site);
    desk.held += 1; // here, since each locked instruction that follows waits for what was stored before it
    match retries::loads::load_once::<V, A>(table, &mut desk.seat, word, cell.kind) {
        Ok(seen) => Some(Content {
            kind: cell.kind,
            word: seen.handle(),
        }),
        Err(_) => {
            desk.held -= 1;
            None
        }
    }
}

/// Whether what a cell holds is equivalent to a handle that the desk has: the same place, and the same object or none
/// ([util.smartptr.atomic.shared], [util.smartptr.atomic.weak]). One look, which changes nothing and waits for nobody.
#[inline]
pub fn holds<V: Drop, A: CellArgs>(
    domain: &Domain<V>,
    desk: &mut Desk<V>,
    site: Site,
    expected: Content,
) -> bool
    requires domain { Belongs desk.old domain.now }
    requires cell { IsOpenAt desk.old site expected.kind × (A.cell ≡ cell_of_site desk.old site) }
    requires expected { A.expected ≡ handle_in desk.old expected.kind expected.word.block expected.word.place }
    requires holds { HoldsHandle desk.old expected.kind expected.word.block expected.word.place }
    ensures event { AddsEvent desk.old (Same A.cell A.expected result) desk.new }
    ensures outcome { Outcome desk.old (bag_of desk.old) desk.old.held desk.new }
{
    let table = &domain.table.shared;
    let seat = &mut desk.seat;
    let word = site_word(domain.shape.blocks, site);
    steps::cells::holds::<V, A>(table, seat, word, expected.word)
}

/// A handle that the desk has goes into a cell, and what the cell held comes out ([util.smartptr.atomic.shared],
/// [util.smartptr.atomic.weak]). It waits for nobody.
#[inline]
pub fn exchange<V: Drop, A: CellArgs>(
    domain: &Domain<V>,
    desk: &mut Desk<V>,
    site: Site,
    new: Content,
) -> Content
    requires domain { Belongs desk.old domain.now }
    requires cell { IsOpenAt desk.old site new.kind × (A.cell ≡ cell_of_site desk.old site) }
    requires new { A.new ≡ handle_in desk.old new.kind new.word.block new.word.place }
    requires holds { HoldsHandle desk.old new.kind new.word.block new.word.place }
    ensures event { AddsEvent desk.old
        (Swap A.cell A.new (handle_in desk.new new.kind result.word.block result.word.place)) desk.new }
    ensures bag { bag_of desk.new ≡ with_handle new.kind result.word.block result.word.place
        (without_handle new.kind new.word.block new.word.place (bag_of desk.old)) }
    ensures held { desk.new.held ≡ desk.old.held }
    ensures holds { HoldsHandle desk.new new.kind result.word.block result.word.place }
    ensures kind { result.kind ≡ new.kind }
    ensures keeps { Keeps desk.old desk.new }
{
    let table = &domain.table.shared;
    let seat = &mut desk.seat;
    let word = site_word(domain.shape.blocks, site);
    let old = retries::cells::swap::<V, A>(table, seat, word, new.kind, new.word);
    Content {
        kind: new.kind,
        word: old.handle(),
    }
}
