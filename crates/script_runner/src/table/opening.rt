//! A new domain, with what its first table is made of.
ghost use Rattle.std.specs.Prelude.{◌≡◌, ◌⊎◌, ◌↔◌, length, IfErr, IfOk};
ghost use Rattle.control_word.specs.Layout.{IsWithinLimits};
ghost use Rattle.control_block.specs.Desks.{IsFirstDesk};
ghost use Rattle.script_runner.specs.Openings.{IsFirstPart};
ghost use Rattle.script_runner.specs.Parting.{IsNew};

use crate::table::closing::shut;
use crate::table::parting::parts::{Part, room_for};
use crate::table::slots::open_slots;
use crate::table::{Home, WorkerTable};
use control_block::domain::{Domain, open};
use control_word::{Refusal, Shape};
use std::alloc::Global;
use std::marker::PhantomData;

/// A domain is opened, with what its first table is made of: its desk, so many vacant slots, and a pile with room for
/// all blocks. It is refused `Shape` just where the shape is outside the limits, and `Memory` only where a growth was
/// really refused.
pub(crate) fn open_domain<V: Drop>(
    alloc: Global,
    shape: Shape,
    count: usize,
) -> Result<(Domain<V>, Part<V>), Refusal>
    ensures of { IfOk result (λ r. r.0.shape ≡ shape) }
    ensures first { IfOk result (λ r. IsFirstPart r.0 r.1) }
    ensures many { IfOk result (λ r. length r.1.slots.items ≡ count) }
    ensures within { IfOk result (λ _. IsWithinLimits shape) }
    ensures shape { IfErr result (λ why. why ≡ Refusal.Shape ↔ (IsWithinLimits shape → ⊥)) }
    ensures refused { IfErr result (λ why. (why ≡ Refusal.Shape) ⊎ (why ≡ Refusal.Memory)) }
{
    let (domain, desk) = open::<V>(alloc, shape)?;
    let (mut slots, pile) = match room_for(&domain, alloc, count) {
        Ok(room) => room,
        Err(why) => {
            shut(domain, desk);
            return Err(why);
        }
    };
    open_slots(&mut slots, count);
    Ok((domain, Part { desk, slots, pile }))
}

/// A domain's first table.
pub(crate) fn first_table<'d, V: Drop, H: Home>(
    domain: &'d Domain<V>,
    part: Part<V>,
) -> WorkerTable<'d, V, H>
    requires home { domain.now ≡ H.domain }
    requires first { IsFirstPart domain.now part }
    ensures begins { IsFirstDesk domain.now result.desk }
    ensures new { IsNew (length part.slots.items) result }
{
    let Part { desk, slots, pile } = part;
    WorkerTable {
        domain,
        home: PhantomData,
        desk,
        slots,
        pile,
    }
}
