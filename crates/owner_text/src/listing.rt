//! The lines of objects, and how many there are.

ghost use Rattle.std.specs.Prelude.{◌≡◌, ℕ, ◌+◌, ◌-◌, OnOk};
ghost use Rattle.owner_text.specs.Prelude.{AddsLines, held_on, row_at};
ghost use Rattle.owner_text.specs.Drafts.{draft_of, is_object};
ghost use Rattle.owner_text.specs.Lines.{counted, is_leaked, lines_to, object_label, object_lines};

use crate::draft::{Draft, is_object, object_at};
use crate::lines::{put_handles, put_object, status_word};
use owner_graph::Findings;
use std::alloc::AllocError;

/// An object's label.
pub(crate) fn label_of(draft: &Draft, number: u32) -> &str
    ensures { result.now ≡ object_label (draft_of draft.now) number }
{
    let object = object_at(draft, number);
    draft.labels.text(object.saturating_sub(1))
}

/// Adds the lines of an object, where there is one.
fn put_lines(
    text: &mut String,
    draft: &Draft,
    found: &Findings,
    number: u32,
) -> Result<(), AllocError>
    requires { (b : ℕ) → row_at found.now.index.rows.items b ≡ held_on draft.now.handles.items b }
    ensures { OnOk result (AddsLines text.old text.new
        (object_lines (draft_of draft.now) found.now number)) }
{
    if !is_object(draft, number) {
        return Ok(());
    }
    let status = status_word(found.is_kept(number), found.stays(number));
    put_object(text, number, status, label_of(draft, number))?;
    put_handles(text, &draft.labels, found.handles_on(number))?;
    Ok(())
}

/// Adds the lines of all objects, in order.
pub(crate) fn put_objects(
    text: &mut String,
    draft: &Draft,
    found: &Findings,
    vertices: u32,
) -> Result<(), AllocError>
    requires { (b : ℕ) → row_at found.now.index.rows.items b ≡ held_on draft.now.handles.items b }
    ensures { OnOk result (AddsLines text.old text.new
        (lines_to (object_lines (draft_of draft.now) found.now) vertices)) }
{
    for before in 0..vertices {
        put_lines(text, draft, found, before + 1)?;
    }
    Ok(())
}

/// How many objects there are.
pub(crate) fn objects_in(draft: &Draft, vertices: u32) -> u32
    ensures { result ≡ counted (is_object draft.now.objects.items) vertices }
{
    let mut count = 0;
    for before in 0..vertices {
        if is_object(draft, before + 1) {
            count += 1;
        }
    }
    count
}

/// Whether an object is leaked.
fn is_leaked(draft: &Draft, found: &Findings, number: u32) -> bool
    ensures { result ≡ is_leaked (draft_of draft.now) found.now number }
{
    is_object(draft, number) && !found.is_kept(number) && found.stays(number)
}

/// How many are leaked.
pub(crate) fn leaked_in(draft: &Draft, found: &Findings, vertices: u32) -> u32
    ensures { result ≡ counted (is_leaked (draft_of draft.now) found.now) vertices }
{
    let mut count = 0;
    for before in 0..vertices {
        if is_leaked(draft, found, before + 1) {
            count += 1;
        }
    }
    count
}
