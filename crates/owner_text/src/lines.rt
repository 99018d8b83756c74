//! The parts of lines, as text.

ghost use Rattle.std.specs.Prelude.{◌≡◌, [], ◌∷◌, ◌++◌, map, OnOk, string_bytes, codes, decimal};
ghost use Rattle.owner_text.specs.Prelude.{AddsLines};
ghost use Rattle.owner_text.specs.Lines.{handle_text, kind_text, label_part, object_text};
ghost use Rattle.owner_text.specs.Lines.{status_text, tie_text, totals_text, weaken_text};

use crate::labels::Labels;
use owner_graph::{Holding, LabelPair};
use std::alloc::AllocError;
use std::fmt::Write;

/// Whether an object is kept, or leaked, or has ended.
pub(crate) fn status_word(is_kept: bool, stays: bool) -> &'static str
    ensures { result.now ≡ status_text is_kept stays }
{
    if is_kept {
        "kept"
    } else if stays {
        "leaked"
    } else {
        "ended"
    }
}

/// What a handle in an object is.
fn kind_word(is_owner: bool) -> &'static str
    ensures { result.now ≡ kind_text is_owner }
{
    if is_owner { "owner" } else { "weak" }
}

/// Adds a label after a space, or nothing.
fn put_label(text: &mut String, label: &str) -> Result<(), AllocError>
    ensures { OnOk result (string_bytes text.new ≡ string_bytes text.old ++ label_part label.now) }
{
    if label.is_empty() {
        return Ok(());
    }
    write!(text, " {label}")?;
    Ok(())
}

/// Adds the end of a line.
pub(crate) fn put_end(text: &mut String) -> Result<(), AllocError>
    ensures { OnOk result (string_bytes text.new ≡ string_bytes text.old ++ 10 ∷ []) }
{
    text.push_str("\n")?;
    Ok(())
}

/// Adds the line of an object.
pub(crate) fn put_object(
    text: &mut String,
    number: u32,
    status: &str,
    label: &str,
) -> Result<(), AllocError>
    ensures { OnOk result (AddsLines text.old text.new
        (object_text number status.now label.now ∷ [])) }
{
    write!(text, "object {number} {status}")?;
    put_label(text, label)?;
    put_end(text)
}

/// Adds the line of a handle in something that is no object.
fn put_root(text: &mut String, label: &str) -> Result<(), AllocError>
    ensures { OnOk result (AddsLines text.old text.new ((codes "  root " ++ label.now) ∷ [])) }
{
    writeln!(text, "  root {label}")?;
    Ok(())
}

/// Adds the line of a handle in an object.
fn put_held(text: &mut String, kind: &str, from: u32, label: &str) -> Result<(), AllocError>
    ensures { OnOk result (AddsLines text.old text.new
        ((codes "  " ++ kind.now ++ codes " " ++ decimal from ++ codes " " ++ label.now) ∷ [])) }
{
    write!(text, "  {kind} {from}")?;
    writeln!(text, " {label}")?;
    Ok(())
}

/// Adds the line of a handle.
fn put_handle(text: &mut String, labels: &Labels, handle: Holding) -> Result<(), AllocError>
    ensures { OnOk result (AddsLines text.old text.new (handle_text labels.now handle ∷ [])) }
{
    let label = labels.text(handle.label);
    if handle.from == 0 {
        return put_root(text, label);
    }
    put_held(text, kind_word(handle.is_owner), handle.from, label)
}

/// Adds the lines of handles, in order.
pub(crate) fn put_handles(
    text: &mut String,
    labels: &Labels,
    handles: &[Holding],
) -> Result<(), AllocError>
    ensures { OnOk result (AddsLines text.old text.new (map (handle_text labels.now) handles.now)) }
{
    for handle in handles {
        put_handle(text, labels, *handle)?;
    }
    Ok(())
}

/// Adds the line of an owner in a knot.
pub(crate) fn put_tie(
    text: &mut String,
    word: &str,
    labels: &Labels,
    tie: Holding,
) -> Result<(), AllocError>
    ensures { OnOk result (AddsLines text.old text.new (tie_text word.now labels.now tie ∷ [])) }
{
    let label = labels.text(tie.label);
    let Holding { from, to, .. } = tie;
    write!(text, "  {word} {from}")?;
    writeln!(text, " {to} {label}")?;
    Ok(())
}

/// Adds the line of labels whose owners would have to be weak.
pub(crate) fn put_weakening(
    text: &mut String,
    labels: &Labels,
    pair: LabelPair,
) -> Result<(), AllocError>
    ensures { OnOk result (AddsLines text.old text.new (weaken_text labels.now pair ∷ [])) }
{
    let first = labels.text(pair.first);
    write!(text, "  weaken {first}")?;
    if pair.first != pair.second {
        let second = labels.text(pair.second);
        write!(text, " and {second}")?;
    }
    put_end(text)
}

/// Adds the last line.
pub(crate) fn put_totals(
    text: &mut String,
    objects: u32,
    handles: usize,
    leaked: u32,
) -> Result<(), AllocError>
    ensures { OnOk result (AddsLines text.old text.new (totals_text objects handles leaked ∷ [])) }
{
    write!(text, "objects {objects}")?;
    write!(text, " handles {handles}")?;
    writeln!(text, " leaked {leaked}")?;
    Ok(())
}
