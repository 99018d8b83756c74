//! The check of labels of vertices, by which they are known to be knots.
ghost use Rattle.std.specs.Prelude.{◌≡◌, ◌↔◌, ◌+◌, ◌≤◌, ℕ, All, IfOk, IsTrue, List, OnOk};
ghost use Rattle.std.specs.Prelude.{false, length, slice_index_or, true};
ghost use Rattle.owner_graph.specs.Labels.{AreInner, AreLow, IsRanked, at, step};
ghost use Rattle.owner_graph.specs.Owners.{IsAmong, OwnersLead, Owns};
ghost use Rattle.owner_graph.specs.Knots.{KnotsAre};

use crate::directed_graph::GraphError;
use crate::holding::{Holding, as_index};
use crate::reachability::{reached, reaching};
use crate::search::components::at;
use std::alloc::{AllocError, Global};

/// Whether an owner is on a vertex, whose rank is no less than that of the vertex where it is.
fn is_ranked(handle: Holding, ranks: &[usize]) -> bool
    ensures { IsTrue result ↔ IsRanked ranks.now handle }
{
    if !handle.is_owner {
        return true;
    }
    let from = as_index(handle.from);
    let to = as_index(handle.to);
    to > 0 && (from == 0 || at(ranks, from) <= at(ranks, to))
}

fn are_ranked(handles: &[Holding], ranks: &[usize]) -> bool
    ensures { IsTrue result ↔ All (IsRanked ranks.now) handles.now }
{
    handles.iter().all(|handle| is_ranked(*handle, ranks))
}

/// Whether the label of each vertex, from 1, is one, and no greater.
fn are_low(vertices: u32, labels: &[usize]) -> bool
    ensures { IsTrue result → AreLow vertices labels.now }
{
    for before in 0..vertices {
        let vertex = as_index(before) + 1;
        let label = at(labels, vertex);
        if label == 0 || label > vertex {
            return false;
        }
    }
    true
}

/// A step from one vertex to another.
fn step(from: u32, to: u32) -> Holding
    ensures { result ≡ step from to }
{
    Holding {
        from,
        to,
        slot: 0,
        label: 0,
        is_owner: true,
    }
}

/// Adds steps from 0 to a vertex that is its own label, and back.
fn add_ends(number: u32, labels: &[usize], steps: &mut Vec<Holding>) -> Result<(), AllocError>
    requires { 1 ≤ number }
    ensures { OnOk result ((hs : List Holding) → AreInner hs labels.now steps.old.items
        → AreInner hs labels.now steps.new.items) }
{
    if at(labels, as_index(number)) == as_index(number) {
        steps.push(step(0, number))?;
        steps.push(step(number, 0))?;
    }
    Ok(())
}

/// Adds an owner within vertices of one label.
fn add_within(handle: Holding, labels: &[usize], steps: &mut Vec<Holding>) -> Result<(), AllocError>
    ensures { OnOk result ((hs : List Holding)
        → (handle.is_owner ≡ true → Owns hs (handle.from) handle.to)
        → AreInner hs labels.now steps.old.items → AreInner hs labels.now steps.new.items) }
{
    let from = as_index(handle.from);
    let to = as_index(handle.to);
    if from > 0 && to > 0 && at(labels, from) == at(labels, to) {
        steps.push(handle)?;
    }
    Ok(())
}

/// The steps by which vertices of one label are to be reached from 0, and back.
fn inner_steps(
    alloc: Global,
    vertices: u32,
    handles: &[Holding],
    labels: &[usize],
) -> Result<Vec<Holding>, AllocError>
    ensures { IfOk result (λ steps. AreInner handles.now labels.now steps.items) }
{
    let mut steps = Vec::new(alloc);
    for before in 0..vertices {
        add_ends(before + 1, labels, &mut steps)?;
    }
    for handle in handles {
        add_within(*handle, labels, &mut steps)?;
    }
    Ok(steps)
}

/// Whether each vertex, from 1, is marked.
fn are_marked(vertices: u32, marks: &[bool]) -> bool
    requires { length marks.now ≡ vertices + 1 }
    ensures { IsTrue result → (b : ℕ) → 1 ≤ b → b ≤ vertices
        → slice_index_or marks.now b false ≡ true }
{
    for before in 0..vertices {
        if !marks[as_index(before) + 1] {
            return false;
        }
    }
    true
}

/// Whether the steps lead to each vertex from 0.
fn lead_down(alloc: Global, vertices: u32, steps: &[Holding]) -> Result<bool, AllocError>
    ensures { IfOk result (λ all. IsTrue all → (b : ℕ) → 1 ≤ b → b ≤ vertices
        → OwnersLead steps.now 0 b) }
{
    match reached(alloc, vertices, steps, 0) {
        Ok(marks) => Ok(are_marked(vertices, marks.as_slice())),
        Err(GraphError::Memory) => Err(AllocError),
        Err(GraphError::Outside) => Ok(false),
    }
}

/// Whether the steps lead from each vertex to 0.
fn lead_up(alloc: Global, vertices: u32, steps: &[Holding]) -> Result<bool, AllocError>
    ensures { IfOk result (λ all. IsTrue all → (b : ℕ) → 1 ≤ b → b ≤ vertices
        → OwnersLead steps.now b 0) }
{
    match reaching(alloc, vertices, steps, 0) {
        Ok(marks) => Ok(are_marked(vertices, marks.as_slice())),
        Err(GraphError::Memory) => Err(AllocError),
        Err(GraphError::Outside) => Ok(false),
    }
}

/// Whether labels, that are the same where ranks are, are found to be the least vertices of knots.
pub(crate) fn are_knots(
    alloc: Global,
    vertices: u32,
    handles: &[Holding],
    ranks: &[usize],
    labels: &[usize],
) -> Result<bool, AllocError>
    requires among { All (IsAmong vertices) handles.now }
    requires size { length labels.now ≡ vertices + 1 }
    requires same { (a b : ℕ) → a ≤ vertices → b ≤ vertices → at ranks.now a ≡ at ranks.now b
        → at labels.now a ≡ at labels.now b }
    ensures { IfOk result (λ are. IsTrue are → KnotsAre vertices handles.now labels.now) }
{
    if !are_ranked(handles, ranks) || !are_low(vertices, labels) {
        return Ok(false);
    }
    let steps = inner_steps(alloc, vertices, handles, labels)?;
    let down = lead_down(alloc, vertices, steps.as_slice())?;
    if !down {
        return Ok(false);
    }
    let up = lead_up(alloc, vertices, steps.as_slice())?;
    Ok(up)
}
