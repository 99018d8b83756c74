//! Stages: parts of a knot, one after another. Just one owner leads from each to the next, and from
//! the last to the first. Each of these is a cut.
ghost use Rattle.std.specs.Prelude.{◌⊎◌, All, IsTrue};
ghost use Rattle.owner_graph.specs.Stages.{IsExit, IsOut, IsStaged, LeadsOn, LeadsOut, LeadsRound};

use crate::holding::{Holding, as_index};
use crate::search::components::at;
use crate::tie::marked;

/// Of each vertex the number of its stage, and a rank; of each stage the place of the
/// owner that leads on, as a vertex and a slot; and of each knot, by its least vertex, the number
/// of its first stage and of that after its last, and whether it has stages. [`are_stages`] checks
/// it.
#[derive(Drop)]
pub(crate) struct Stages {
    pub(crate) stages: Vec<usize>,
    pub(crate) ranks: Vec<usize>,
    pub(crate) sources: Vec<usize>,
    pub(crate) slots: Vec<usize>,
    pub(crate) firsts: Vec<usize>,
    pub(crate) afters: Vec<usize>,
    pub(crate) are: Vec<bool>,
}

/// Whether a handle is at the place that is recorded for a stage.
fn is_exit(stages: &Stages, stage: usize, handle: Holding) -> bool
    ensures { IsTrue result → IsExit stages.now stage handle }
{
    as_index(handle.from) == at(stages.sources.as_slice(), stage)
        && as_index(handle.slot) == at(stages.slots.as_slice(), stage)
}

/// Whether an owner is within a stage, and in a vertex of a lesser rank.
fn leads_on(stages: &Stages, handle: Holding) -> bool
    ensures { IsTrue result → LeadsOn stages.now handle }
{
    let (from, to) = (as_index(handle.from), as_index(handle.to));
    let (numbers, ranks) = (stages.stages.as_slice(), stages.ranks.as_slice());
    at(numbers, from) == at(numbers, to) && at(ranks, from) < at(ranks, to)
}

/// Whether an owner, at the place that is recorded for a stage, leads to the next one.
fn leads_out(stages: &Stages, handle: Holding) -> bool
    ensures { IsTrue result → LeadsOut stages.now handle }
{
    let (from, to) = (as_index(handle.from), as_index(handle.to));
    let (numbers, ranks) = (stages.stages.as_slice(), stages.ranks.as_slice());
    let stage = at(numbers, from);
    is_exit(stages, stage, handle)
        && at(numbers, to) > stage
        && at(numbers, to) - stage == 1
        && at(ranks, from) < at(ranks, to)
}

/// Whether an owner, at the place that is recorded for the last stage of a knot, leads to the first.
fn leads_round(stages: &Stages, knot: usize, handle: Holding) -> bool
    ensures { IsTrue result → LeadsRound stages.now knot handle }
{
    let numbers = stages.stages.as_slice();
    let stage = at(numbers, as_index(handle.from));
    let after = at(stages.afters.as_slice(), knot);
    is_exit(stages, stage, handle)
        && after > stage
        && after - stage == 1
        && at(numbers, as_index(handle.to)) == at(stages.firsts.as_slice(), knot)
}

/// Whether an owner does one of these.
fn leads(stages: &Stages, knot: usize, handle: Holding) -> bool
    ensures { IsTrue result → LeadsOn stages.now handle
        ⊎ (LeadsOut stages.now handle ⊎ LeadsRound stages.now knot handle) }
{
    leads_on(stages, handle) || leads_out(stages, handle) || leads_round(stages, knot, handle)
}

/// Whether a handle is no owner in a vertex that stays and on one of a knot with stages, or within
/// that knot, and leads so.
fn is_staged(stays: &[bool], knots: &[usize], stages: &Stages, handle: Holding) -> bool
    ensures { IsTrue result → IsStaged stays.now knots.now stages.now handle }
{
    let from = as_index(handle.from);
    let knot = at(knots, as_index(handle.to));
    if !handle.is_owner || !marked(stays, from) || !marked(stages.are.as_slice(), knot) {
        return true;
    }
    from > 0 && at(knots, from) == knot && leads(stages, knot, handle)
}

/// Whether the stages are found to be some.
pub(crate) fn are_stages(
    handles: &[Holding],
    knots: &[usize],
    stays: &[bool],
    stages: &Stages,
) -> bool
    ensures { IsTrue result → All (IsStaged stays.now knots.now stages.now) handles.now }
{
    handles
        .iter()
        .all(|handle| is_staged(stays, knots, stages, *handle))
}

/// Whether a tie is recorded as the owner that leads from a stage of its knot.
pub(crate) fn is_out(stages: &Stages, tie: Holding) -> bool
    ensures { IsTrue result → IsOut stages.now tie }
{
    let knot = as_index(tie.to);
    let stage = at(stages.stages.as_slice(), as_index(tie.from));
    marked(stages.are.as_slice(), knot)
        && at(stages.firsts.as_slice(), knot) <= stage
        && stage < at(stages.afters.as_slice(), knot)
        && is_exit(stages, stage, tie)
}
