//! How a map is opened.
ghost use Rattle.std.specs.Prelude.{IfErr, IfOk};
ghost use Rattle.pointers.specs.Sites.{free_site};
ghost use Rattle.shared_map.specs.Openings.{HasMany, IsMany, OpensMap};
ghost use Rattle.shared_map.specs.Refusals.{WhyNotFound, WhyNotOpened};

use crate::bucket::Bucket;
use crate::map::SharedMap;
use crate::node::node_in;
use pointers::{Desk, Domain, Fault, Shared, SharedCell};
use std::alloc::Global;
use std::sync::Wait;

/// How many buckets there are beside the first one, by what its object was made with.
fn others_of<'t, D: Domain>(first: &Shared<'t, D>) -> Result<u32, Fault>
    ensures many { IfOk result (IsMany D.opened first.now) }
    ensures refused { IfErr result WhyNotFound }
{
    let buckets = u32::try_from(first.read()?).unwrap_or(u32::MAX);
    Ok(buckets.saturating_sub(1))
}

impl<'t, D: Domain> SharedMap<'t, D>
where
    D::Value: Default,
{
    /// The map in a free cell (waits), with so many buckets where no thread has opened it before; else with those that
    /// it has. Each thread opens it once, and keeps a pointer to each bucket. An object more is made for each bucket;
    /// all end when the cell is cleared and no thread has the map any more.
    /// Faults: those of an insert, `Cell` where there is no such cell, and `Memory`.
    pub fn open<R: Wait>(
        rt: &R,
        desk: &'t Desk<'t, D>,
        alloc: Global,
        cell: SharedCell,
        buckets: u32,
    ) -> Result<SharedMap<'t, D>, Fault>
        ensures opened { IfOk result (λ m. OpensMap D.opened (λ b. b.node) (λ b. b.is_entry) (free_site cell.0)
            m.buckets.items m.last) }
        ensures many { IfOk result (λ m. HasMany D.opened (λ b. b.node) m.buckets.items m.last) }
        ensures refused { IfErr result WhyNotOpened }
    {
        let place = desk.cell(cell);
        let mut node = node_in(rt, desk, &place, u64::from(buckets))?;
        let others = others_of(&node)?;
        let mut buckets = Vec::with_capacity(alloc, others as usize)?;
        for number in 0..others {
            let next = node_in(rt, desk, &node.first(), u64::from(number))?;
            let is_entry = false;
            buckets.push(Bucket { node, is_entry })?;
            node = next;
        }
        let is_entry = false;
        let last = Bucket { node, is_entry };
        Ok(SharedMap {
            desk,
            buckets,
            last,
        })
    }
}
