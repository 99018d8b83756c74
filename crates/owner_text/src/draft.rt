//! A graph so far.

ghost use Rattle.std.specs.Prelude.{◌≡◌, ◌<◌, IfOk, OnOk, Ok, vec_len};
ghost use Rattle.owner_text.specs.Prelude.{Gives};
ghost use Rattle.owner_text.specs.Drafts.{draft_of, held, is_object, named, new_draft, object_at};
ghost use Rattle.owner_text.specs.Drafts.{with_handle, with_object, with_room};
ghost use Rattle.owner_text.specs.Labels.{with_label};

use crate::fault::{Cause, Stop};
use crate::labels::Labels;
use owner_graph::Holding;
use std::alloc::{AllocError, Global};

/// The most handles that a graph may have.
const MOST_HANDLES: usize = 67_108_864;

/// A graph so far: of each number, from 0, one more than the number of the object's label, or 0
/// where there is no such object; the labels; and the handles.
#[derive(Drop)]
pub(crate) struct Draft {
    pub(crate) objects: Vec<u32>,
    pub(crate) labels: Labels,
    pub(crate) handles: Vec<Holding>,
}

/// The graph before the first line.
pub(crate) fn empty_draft(alloc: Global) -> Result<Draft, AllocError>
    ensures { IfOk result (λ d. draft_of d ≡ new_draft) }
{
    let mut objects = Vec::new(alloc);
    objects.push(0)?;
    Ok(Draft {
        objects,
        labels: Labels::new(alloc),
        handles: Vec::new(alloc),
    })
}

/// What stands for an object: one more than the number of its label, or 0 where there is no such
/// object.
pub(crate) fn object_at(draft: &Draft, number: u32) -> u32
    ensures { result ≡ object_at draft.now.objects.items number }
{
    let index = number as usize;
    if index < draft.objects.len() {
        draft.objects[index]
    } else {
        0
    }
}

/// Whether there is an object with this number.
pub(crate) fn is_object(draft: &Draft, number: u32) -> bool
    ensures { result ≡ is_object draft.now.objects.items number }
{
    object_at(draft, number) > 0
}

/// Makes room for objects up to this number.
fn make_room(objects: &mut Vec<u32>, number: u32) -> Result<(), AllocError>
    ensures { OnOk result (objects.new.items ≡ with_room objects.old.items number) }
{
    for _object in objects.len()..number as usize + 1 {
        objects.push(0)?;
    }
    Ok(())
}

/// Adds an object that isn't there yet.
fn add_object(alloc: Global, draft: &mut Draft, number: u32, label: &str) -> Result<(), Stop>
    ensures { Gives (λ _. draft_of draft.new) result
        (Ok (with_object (draft_of draft.old) number
        (with_label label.now (draft_of draft.old).labels))) }
{
    let label = draft.labels.number(alloc, label)?;
    if label == u32::MAX {
        return Err(Stop::Memory);
    }
    make_room(&mut draft.objects, number)?;
    draft.objects[number as usize] = label + 1;
    Ok(())
}

/// Names an object.
pub(crate) fn name_object(
    alloc: Global,
    draft: &mut Draft,
    number: u32,
    label: &str,
) -> Result<(), Stop>
    ensures { Gives (λ _. draft_of draft.new) result (named (draft_of draft.old) number label.now) }
{
    if is_object(draft, number) {
        return Err(Stop::Cause(Cause::ObjectNamedTwice));
    }
    add_object(alloc, draft, number, label)
}

/// Where a handle is, and on what.
#[derive(Clone, Copy, Drop)]
pub(crate) struct Ends {
    pub(crate) from: u32,
    pub(crate) to: u32,
    pub(crate) is_owner: bool,
}

/// Adds a handle between objects that are there.
fn push_handle(alloc: Global, draft: &mut Draft, ends: Ends, label: &str) -> Result<(), Stop>
    requires { vec_len draft.old.handles < 67108864 }
    ensures { Gives (λ _. draft_of draft.new) result
        (Ok (with_handle (draft_of draft.old) ends.from ends.to ends.is_owner
        (with_label label.now (draft_of draft.old).labels))) }
{
    let label = draft.labels.number(alloc, label)?;
    let Ends { from, to, is_owner } = ends;
    let slot = draft.handles.len() as u32;
    draft.handles.push(Holding {
        from,
        to,
        slot,
        label,
        is_owner,
    })?;
    Ok(())
}

/// Adds a handle.
pub(crate) fn add_handle(
    alloc: Global,
    draft: &mut Draft,
    ends: Ends,
    label: &str,
) -> Result<(), Stop>
    ensures { Gives (λ _. draft_of draft.new) result
        (held (draft_of draft.old) ends.from ends.to ends.is_owner label.now) }
{
    if !((ends.from == 0 || is_object(draft, ends.from)) && is_object(draft, ends.to)) {
        return Err(Stop::Cause(Cause::NoSuchObject));
    }
    if draft.handles.len() >= MOST_HANDLES {
        return Err(Stop::Cause(Cause::TooManyHandles));
    }
    push_handle(alloc, draft, ends, label)
}
