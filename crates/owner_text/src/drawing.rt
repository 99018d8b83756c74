//! A graph of owners for Graphviz.

ghost use Rattle.std.specs.Prelude.{◌≡◌, ℕ, [], ◌∷◌, ◌++◌, IfOk, OnOk, string_bytes};
ghost use Rattle.owner_text.specs.Prelude.{AddsLines, AreFindings, color_text, ended, flat_map};
ghost use Rattle.owner_text.specs.Prelude.{has_tie, held_in, row_at, style_text, tie_text};
ghost use Rattle.owner_text.specs.Drafts.{draft_of};
ghost use Rattle.owner_text.specs.Drawing.{box_text, edge_lines, edge_text, graph_lines};
ghost use Rattle.owner_text.specs.Drawing.{head_lines, node_lines, node_text, object_color};
ghost use Rattle.owner_text.specs.Drawing.{quoted, quoted_byte, root_edge_text, root_lines};
ghost use Rattle.owner_text.specs.Lines.{lines_to, vertices_of};

use crate::draft::{Draft, is_object};
use crate::listing::label_of;
use owner_graph::drawing::{color_word, style_word, tie_word};
use owner_graph::{Findings, Holding};
use std::alloc::{AllocError, Global};
use std::fmt::Write;

/// Adds a byte as it stands between quotes.
fn put_byte(text: &mut String, byte: u8) -> Result<(), AllocError>
    ensures { OnOk result (string_bytes text.new ≡ string_bytes text.old ++ quoted_byte byte) }
{
    if byte == b'"' || byte == b'\\' {
        text.push_str("\\")?;
    }
    text.push(char::from(byte))?;
    Ok(())
}

/// Adds a label as it stands between quotes.
fn put_quoted(text: &mut String, label: &str) -> Result<(), AllocError>
    ensures { OnOk result (string_bytes text.new ≡ string_bytes text.old ++ quoted label.now) }
{
    for byte in label.as_bytes() {
        put_byte(text, *byte)?;
    }
    Ok(())
}

/// The color of an object.
fn object_color(is_kept: bool, stays: bool, is_tied: bool) -> &'static str
    ensures { result.now ≡ object_color is_kept stays is_tied }
{
    if is_kept || stays {
        color_word(is_kept, is_tied)
    } else {
        "white, fontcolor=grey"
    }
}

/// Adds an object.
fn put_node(text: &mut String, number: u32, label: &str, color: &str) -> Result<(), AllocError>
    ensures { OnOk result (AddsLines text.old text.new
        (node_text number label.now color.now ∷ [])) }
{
    write!(text, "o{number} [label=\"{number} ")?;
    put_quoted(text, label)?;
    writeln!(text, "\", fillcolor={color}];")?;
    Ok(())
}

/// Adds an object, where there is one.
fn put_object(
    text: &mut String,
    draft: &Draft,
    found: &Findings,
    number: u32,
) -> Result<(), AllocError>
    requires { (b : ℕ) → row_at found.now.sources.items b ≡ held_in draft.now.handles.items b }
    ensures { OnOk result (AddsLines text.old text.new
        (node_lines (draft_of draft.now) found.now number)) }
{
    if !is_object(draft, number) {
        return Ok(());
    }
    let is_tied = found.has_tie(number);
    let color = object_color(found.is_kept(number), found.stays(number), is_tied);
    put_node(text, number, label_of(draft, number), color)?;
    Ok(())
}

/// Adds all objects, in order.
fn put_objects(
    text: &mut String,
    draft: &Draft,
    found: &Findings,
    vertices: u32,
) -> Result<(), AllocError>
    requires { (b : ℕ) → row_at found.now.sources.items b ≡ held_in draft.now.handles.items b }
    ensures { OnOk result (AddsLines text.old text.new
        (lines_to (node_lines (draft_of draft.now) found.now) vertices)) }
{
    for before in 0..vertices {
        put_object(text, draft, found, before + 1)?;
    }
    Ok(())
}

/// Adds something that is no object.
fn put_box(text: &mut String, slot: u32, label: &str) -> Result<(), AllocError>
    ensures { OnOk result (AddsLines text.old text.new (box_text slot label.now ∷ [])) }
{
    write!(text, "r{slot}")?;
    write!(text, " [shape=box, label=\"")?;
    put_quoted(text, label)?;
    writeln!(text, "\"];")?;
    Ok(())
}

/// Adds the handle of something that is no object.
fn put_root_edge(text: &mut String, slot: u32, to: u32) -> Result<(), AllocError>
    ensures { OnOk result (AddsLines text.old text.new (root_edge_text slot to ∷ [])) }
{
    write!(text, "r{slot} -> o{to}")?;
    writeln!(text, " [style=solid];")?;
    Ok(())
}

/// Adds something that is no object, and its handle.
fn put_root(text: &mut String, slot: u32, to: u32, label: &str) -> Result<(), AllocError>
    ensures { OnOk result (AddsLines text.old text.new (root_lines slot to label.now)) }
{
    put_box(text, slot, label)?;
    put_root_edge(text, slot, to)?;
    Ok(())
}

/// Adds a handle in an object.
fn put_edge(
    text: &mut String,
    handle: Holding,
    label: &str,
    style: &str,
    color: &str,
) -> Result<(), AllocError>
    ensures { OnOk result (AddsLines text.old text.new
        (edge_text handle.from handle.to label.now style.now color.now ∷ [])) }
{
    let Holding { from, to, .. } = handle;
    write!(text, "o{from} -> o{to}")?;
    write!(text, " [label=\" ")?;
    put_quoted(text, label)?;
    writeln!(text, "\", style={style}{color}];")?;
    Ok(())
}

/// Adds a handle.
fn put_handle(
    text: &mut String,
    draft: &Draft,
    found: &Findings,
    handle: Holding,
) -> Result<(), AllocError>
    ensures { OnOk result (AddsLines text.old text.new
        (edge_lines (draft_of draft.now) found.now handle)) }
{
    let label = draft.labels.text(handle.label);
    if handle.from == 0 {
        return put_root(text, handle.slot, handle.to, label);
    }
    let style = style_word(handle.is_owner, found.is_cut(handle.slot));
    let color = tie_word(found.is_tie(handle));
    put_edge(text, handle, label, style, color)
}

/// Adds handles, in order.
fn put_handles(
    text: &mut String,
    draft: &Draft,
    found: &Findings,
    handles: &[Holding],
) -> Result<(), AllocError>
    ensures { OnOk result (AddsLines text.old text.new
        (flat_map (edge_lines (draft_of draft.now) found.now) handles.now)) }
{
    for handle in handles {
        put_handle(text, draft, found, *handle)?;
    }
    Ok(())
}

/// Adds how the drawing begins.
fn put_head(text: &mut String) -> Result<(), AllocError>
    ensures { OnOk result (AddsLines text.old text.new head_lines) }
{
    text.push_str("digraph owners {\nnode [style=filled, fillcolor=white];\n")?;
    Ok(())
}

/// All lines of a graph's drawing.
pub(crate) fn drawn(
    alloc: Global,
    draft: &Draft,
    found: &Findings,
    vertices: u32,
) -> Result<String, AllocError>
    requires vertices { vertices ≡ vertices_of (draft_of draft.now) }
    requires found { AreFindings vertices draft.now.handles.items found.now }
    ensures { IfOk result (λ text. string_bytes text
        ≡ ended (graph_lines (draft_of draft.now) found.now)) }
{
    let mut text = String::new(alloc);
    put_head(&mut text)?;
    put_objects(&mut text, draft, found, vertices)?;
    put_handles(&mut text, draft, found, draft.handles.as_slice())?;
    text.push_str("}\n")?;
    Ok(text)
}
