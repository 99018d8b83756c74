//! Parts of a desk for further tables.
ghost use Rattle.std.specs.Prelude.{◌≡◌, ◌≤◌, [], length, vec_capacity, IfErr, IfOk, OnOk};
ghost use Rattle.control_block.specs.Desks.{Belongs, DeskNow, endings_of, stock_of};
ghost use Rattle.control_block.specs.Parting.{IsTooMuch, SplitsOff};
ghost use Rattle.shared_handle.specs.Piles.{Bears};
ghost use Rattle.script_runner.specs.Parting.{WhyNoPart};
ghost use Rattle.script_runner.specs.Tables.{AllVacant};

use crate::table::slots::open_slots;
use crate::table::staff::Share;
use control_block::desk::Desk;
use control_block::domain::Domain;
use control_word::Refusal;
use shared_handle::{Held, Pile};
use std::alloc::Global;

/// What a further table is made of.
pub(crate) struct Part<V: Drop> {
    pub desk: Desk<V>,
    pub slots: Vec<Option<Held>, Global>,
    pub pile: Pile<V>,
}

/// Whether a desk can give such a part, or why not.
fn may_part<V: Drop>(desk: &Desk<V>, share: Share) -> Result<(), Refusal>
    ensures fits { OnOk result (IsTooMuch desk.now share.allowance 0 → ⊥) }
    ensures blocks { OnOk result (share.blocks ≤ length (stock_of desk.now)) }
    ensures refused { IfErr result (WhyNoPart desk.now share.allowance share.blocks) }
{
    if !desk.may_give::<Option<Held>>(share.allowance, &[]) {
        return Err(Refusal::Limit);
    }
    if desk.stock() < share.blocks {
        return Err(Refusal::Full);
    }
    Ok(())
}

/// Room for so many slots, and an empty pile.
pub(crate) fn room_for<V: Drop>(
    domain: &Domain<V>,
    alloc: Global,
    count: usize,
) -> Result<(Vec<Option<Held>>, Pile<V>), Refusal>
    ensures slots { IfOk result (λ r. (r.0.items ≡ []) × (count ≤ vec_capacity r.0)) }
    ensures empty { IfOk result (λ r. r.1.endings.items ≡ []) }
    ensures bears { IfOk result
        (λ r. (d : DeskNow V) → Belongs d domain.now → endings_of d ≡ 0 → Bears domain.now d r.1) }
    ensures refused { IfErr result (λ why. why ≡ Refusal.Memory) }
{
    let Ok(slots) = Vec::with_capacity(alloc, count) else {
        return Err(Refusal::Memory);
    };
    match Pile::new(alloc, domain) {
        Ok(pile) => Ok((slots, pile)),
        Err(why) => {
            slots.destroy_empty();
            Err(why)
        }
    }
}

/// A part of a desk that can give it, with room for its slots. Only memory may be refused.
fn cut_part<V: Drop>(
    domain: &Domain<V>,
    desk: &mut Desk<V>,
    alloc: Global,
    share: Share,
    room: (Vec<Option<Held>>, Pile<V>),
) -> Result<Part<V>, Refusal>
    requires domain { Belongs desk.old domain.now }
    requires fits { IsTooMuch desk.old share.allowance 0 → ⊥ }
    requires blocks { share.blocks ≤ length (stock_of desk.old) }
    requires slots { (room.0.items ≡ []) × (share.slots ≤ vec_capacity room.0) }
    ensures parts { IfOk result (λ p. SplitsOff desk.old share.allowance share.blocks [] desk.new p.desk) }
    ensures slots { IfOk result (λ p. AllVacant p.slots.items × (length p.slots.items ≡ share.slots)) }
    ensures pile { IfOk result (λ p. p.pile ≡ room.1) }
    ensures refused { IfErr result (λ why. why ≡ Refusal.Memory) }
    ensures same { IfErr result (λ _. desk.new ≡ desk.old) }
{
    let (mut slots, pile) = room;
    match desk.split_slots::<Option<Held>>(alloc, domain, share.allowance, share.blocks, &[]) {
        Ok(desk) => {
            open_slots(&mut slots, share.slots);
            Ok(Part { desk, slots, pile })
        }
        Err(why) => {
            slots.destroy_empty();
            pile.close();
            Err(why)
        }
    }
}

/// A part of a desk for a further table, with so many vacant slots and no handle.
pub(crate) fn part_of<V: Drop>(
    domain: &Domain<V>,
    desk: &mut Desk<V>,
    alloc: Global,
    share: Share,
) -> Result<Part<V>, Refusal>
    requires domain { Belongs desk.old domain.now }
    ensures parts { IfOk result (λ p. SplitsOff desk.old share.allowance share.blocks [] desk.new p.desk) }
    ensures fits { IfOk result (λ _. IsTooMuch desk.old share.allowance 0 → ⊥) }
    ensures slots { IfOk result (λ p. AllVacant p.slots.items × (length p.slots.items ≡ share.slots)) }
    ensures empty { IfOk result (λ p. p.pile.endings.items ≡ []) }
    ensures bears { IfOk result
        (λ p. (d : DeskNow V) → Belongs d domain.now → endings_of d ≡ 0 → Bears domain.now d p.pile) }
    ensures refused { IfErr result (WhyNoPart desk.old share.allowance share.blocks) }
    ensures same { IfErr result (λ _. desk.new ≡ desk.old) }
{
    may_part(desk, share)?;
    let room = room_for(domain, alloc, share.slots)?;
    cut_part(domain, desk, alloc, share, room)
}
