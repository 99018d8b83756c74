//! The compare-and-swap of a cell as a call of a desk.
ghost use Rattle.std.specs.Prelude.{◌≡◌, ◌↔◌, ◌+◌, cond, IfErr, IfOk, IsErr, OnOk};
ghost use Rattle.control_word.specs.declared.model.event.Event.TheVariants.{Compare};
ghost use Rattle.control_block.specs.Desks.{Belongs};
ghost use Rattle.control_block.specs.CellCalls.{HoldsHandle, IsOpenAt, cell_of_site, handle_in, with_handle};
ghost use Rattle.control_block.specs.CellCalls.{without_handle};
ghost use Rattle.control_block.specs.Desks.{AddsEvent, Keeps, allowance_of, bag_of, held_of};

use crate::cell_calls::{Content, Offer};
use crate::desk::Desk;
use crate::domain::Domain;
use crate::retries;
use crate::step_kinds::cells::CellArgs;
use control_word::packed::layout::site_word;
use control_word::{Refusal, Site};
use std::sync::Wait;

/// Where what a cell holds is equivalent to what is expected, the new handle goes in, and what the cell held comes out:
/// true. Else a copy of what it holds: false ([util.smartptr.atomic.shared], [util.smartptr.atomic.weak]). It is
/// refused `Limit` just where the desk is at its allowance, before any step, and then nothing changes.
pub fn compare<V: Drop, A: CellArgs, R: Wait>(
    rt: &R,
    domain: &Domain<V>,
    desk: &mut Desk<V>,
    site: Site,
    offer: Offer,
) -> Result<(bool, Content), Refusal>
    requires domain { Belongs desk.old domain.now }
    requires cell { IsOpenAt desk.old site offer.new.kind × (A.cell ≡ cell_of_site desk.old site) }
    requires expected { A.expected
        ≡ handle_in desk.old offer.new.kind offer.expected.word.block offer.expected.word.place }
    requires new { A.new ≡ handle_in desk.old offer.new.kind offer.new.word.block offer.new.word.place }
    requires holds { HoldsHandle desk.old offer.new.kind offer.expected.word.block offer.expected.word.place
        × HoldsHandle desk.old offer.new.kind offer.new.word.block offer.new.word.place }
    ensures limit { IsErr result ↔ (held_of desk.old ≡ allowance_of desk.old) }
    ensures refused { IfErr result (λ why. (why ≡ Refusal.Limit) × (desk.new ≡ desk.old)) }
    ensures event { IfOk result (λ r. AddsEvent desk.old
        (Compare A.cell A.expected A.new (handle_in desk.new offer.new.kind r.1.word.block r.1.word.place) r.0
        A.weak) desk.new) }
    ensures bag { IfOk result (λ r. bag_of desk.new ≡ with_handle offer.new.kind r.1.word.block r.1.word.place
        (cond r.0 (without_handle offer.new.kind offer.new.word.block offer.new.word.place (bag_of desk.old))
        (bag_of desk.old))) }
    ensures held { IfOk result (λ r. desk.new.held ≡ desk.old.held + cond r.0 0 1) }
    ensures holds { IfOk result (λ r. HoldsHandle desk.new offer.new.kind r.1.word.block r.1.word.place) }
    ensures kind { IfOk result (λ r. r.1.kind ≡ offer.new.kind) }
    ensures keeps { OnOk result (Keeps desk.old desk.new) }
{
    if desk.is_full() {
        return Err(Refusal::Limit);
    }
    let table = &domain.table.shared;
    let word = site_word(domain.shape.blocks, site);
    let seat = &mut desk.seat;
    let (swapped, seen) = retries::compares::compare::<V, A, R>(
        rt,
        table,
        seat,
        word,
        offer.new.kind,
        offer.expected.word,
        offer.new.word,
    );
    desk.held += u32::from(!swapped);
    Ok((
        swapped,
        Content {
            kind: offer.new.kind,
            word: seen.handle(),
        },
    ))
}
