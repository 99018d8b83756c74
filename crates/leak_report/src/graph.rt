//! What is left at a run's end as a graph for Graphviz.
ghost use Rattle.std.specs.Prelude.{◌≡◌, ◌≤◌, true, [], ◌∷◌, ◌++◌, IfOk, OnOk, string_bytes};
ghost use Rattle.leak_report.specs.Prelude.{abstraction, AddsLines, AreFindings, flat_map, IsAtEnd};
ghost use Rattle.leak_report.specs.Prelude.{state_in};
ghost use Rattle.leak_report.specs.Findings.{held_at};
ghost use Rattle.leak_report.specs.Graph.{all_nodes, box_text, edge_by, edge_lines, fields_text};
ghost use Rattle.leak_report.specs.Graph.{free_lines, free_text, head_lines, member_lines};
ghost use Rattle.leak_report.specs.Graph.{node_lines, node_text};
ghost use Rattle.leak_report.specs.Left.{IsCountedAt, TellsOf};

use crate::color::color_of;
use crate::found::{Found, leaks};
use crate::lines::{member_word, put_free};
use crate::listing::Report;
use control_word::Block;
use owner_graph::drawing::{style_word, tie_word};
use owner_graph::{Findings, Holding};
use script_stepper::End;
use std::alloc::{AllocError, Global};
use std::fmt::Write;
use step_core::World;
use step_table::limits::SCRIPT_SHARED_CELLS;

/// Adds the fields of an object, with a space between.
fn put_fields(text: &mut String, fields: &[u64; 4]) -> Result<(), AllocError>
    ensures { OnOk result (string_bytes text.new ≡ string_bytes text.old ++ fields_text fields.now) }
{
    let first = fields[0];
    let second = fields[1];
    let third = fields[2];
    let fourth = fields[3];
    write!(text, "{first} {second}")?;
    write!(text, " {third} {fourth}")?;
    Ok(())
}

/// Adds the node of a block.
fn put_node(text: &mut String, block: u16, fields: &[u64; 4], color: &str) -> Result<(), AllocError>
    ensures { OnOk result (AddsLines text.old text.new (node_text block fields.now color.now ∷ [])) }
{
    write!(text, "b{block} [label=\"block {block}\\n")?;
    put_fields(text, fields)?;
    writeln!(text, "\", fillcolor={color}];")?;
    Ok(())
}

/// Adds the node of a block, where it isn't vacant.
fn put_block(world: &World, number: u16, found: &Found, text: &mut String) -> Result<(), AllocError>
    requires end { IsAtEnd world.now }
    requires block { (1 ≤ number) × (number ≤ world.now.ghost_state.extent.shape.blocks) }
    requires found { AreFindings found.now.blocks found.now.held.items found.now.findings }
    ensures { OnOk result (AddsLines text.old text.new
        (node_lines (state_in (abstraction world.now)) found.now.findings found.now.held.items number)) }
{
    let Some(fields) = world.fields(Block::numbered(u32::from(number))) else {
        return Ok(());
    };
    let color = color_of(found, number);
    put_node(text, number, &fields, color)?;
    Ok(())
}

/// Adds the nodes of all blocks, in order.
fn put_blocks(
    world: &World,
    blocks: u16,
    found: &Found,
    text: &mut String,
) -> Result<(), AllocError>
    requires end { IsAtEnd world.now }
    requires all { blocks ≡ world.now.ghost_state.extent.shape.blocks }
    requires found { AreFindings found.now.blocks found.now.held.items found.now.findings }
    ensures { OnOk result (AddsLines text.old text.new
        (all_nodes (state_in (abstraction world.now)) found.now.findings found.now.held.items blocks)) }
{
    for before in 0..blocks {
        put_block(world, before + 1, found, text)?;
    }
    Ok(())
}

/// Adds the box of a free cell.
fn put_box(text: &mut String, shared: u32, number: u32) -> Result<(), AllocError>
    ensures { OnOk result (AddsLines text.old text.new (box_text shared number ∷ [])) }
{
    put_free(text, shared, number)?;
    writeln!(text, " [shape=box];")?;
    Ok(())
}

/// Adds the line of the handle in a free cell.
fn put_from_box(
    text: &mut String,
    shared: u32,
    number: u32,
    block: u32,
    style: &str,
) -> Result<(), AllocError>
    ensures { OnOk result (AddsLines text.old text.new (free_text shared number block style.now ∷ [])) }
{
    put_free(text, shared, number)?;
    write!(text, " -> b{block}")?;
    writeln!(text, " [style={style}];")?;
    Ok(())
}

/// Adds the box of a free cell, and the line of the handle in it.
fn put_free_edge(
    text: &mut String,
    shared: u32,
    number: u32,
    block: u32,
    style: &str,
) -> Result<(), AllocError>
    ensures { OnOk result (AddsLines text.old text.new (free_lines shared number block style.now)) }
{
    put_box(text, shared, number)?;
    put_from_box(text, shared, number, block, style)?;
    Ok(())
}

/// Adds the line of a handle in a member.
fn put_member_edge(
    text: &mut String,
    from: u32,
    member: u32,
    block: u32,
    style: &str,
    color: &str,
) -> Result<(), AllocError>
    ensures { OnOk result (AddsLines text.old text.new (member_lines from member block style.now color.now)) }
{
    let word = member_word(member);
    write!(text, "b{from} -> b{block}")?;
    write!(text, " [label=\" {word}\"")?;
    writeln!(text, ", style={style}{color}];")?;
    Ok(())
}

/// Adds the line of a handle.
fn put_edge(
    text: &mut String,
    shared: u32,
    style: &str,
    color: &str,
    held: Holding,
) -> Result<(), AllocError>
    ensures { OnOk result (AddsLines text.old text.new (edge_by shared style.now color.now held)) }
{
    if held.from == 0 {
        return put_free_edge(text, shared, held.label, held.to, style);
    }
    put_member_edge(text, held.from, held.label, held.to, style, color)
}

/// Adds the line of what is held in a cell.
fn put_held(
    text: &mut String,
    shared: u32,
    found: &Findings,
    held: Holding,
) -> Result<(), AllocError>
    ensures { OnOk result (AddsLines text.old text.new (edge_lines shared found.now held)) }
{
    let style = style_word(held.is_owner, found.is_cut(held.slot));
    let color = tie_word(found.is_tie(held));
    put_edge(text, shared, style, color, held)?;
    Ok(())
}

/// Adds the lines of all that is held, in order.
fn put_all_held(
    text: &mut String,
    shared: u32,
    found: &Findings,
    holdings: &[Holding],
) -> Result<(), AllocError>
    ensures { OnOk result (AddsLines text.old text.new
        (flat_map (edge_lines shared found.now) holdings.now)) }
{
    for held in holdings {
        put_held(text, shared, found, *held)?;
    }
    Ok(())
}

/// Adds how the graph begins.
fn put_head(text: &mut String) -> Result<(), AllocError>
    ensures { OnOk result (AddsLines text.old text.new head_lines) }
{
    text.push_str("digraph left {\nnode [style=filled, fillcolor=white];\n")?;
    Ok(())
}

/// Draws what is left at a run's end.
pub(crate) fn drawn_at(alloc: Global, end: &End, found: &Found) -> Result<Report, AllocError>
    requires held { found.now.held.items ≡ held_at (abstraction end.now.world) }
    requires found { AreFindings found.now.blocks found.now.held.items found.now.findings }
    requires counted { IsCountedAt (abstraction end.now.world) }
    requires blocks { found.now.blocks ≡ end.now.world.ghost_state.extent.shape.blocks }
    ensures { IfOk result (λ report. TellsOf (abstraction end.now.world) true report.leaks
        (string_bytes report.text)) }
{
    let mut text = String::new(alloc);
    put_head(&mut text)?;
    put_blocks(&end.world, end.blocks, found, &mut text)?;
    let held = found.held.as_slice();
    put_all_held(&mut text, SCRIPT_SHARED_CELLS, &found.findings, held)?;
    text.push_str("}\n")?;
    let leaks = leaks(&end.world, end.blocks, found);
    Ok(Report { text, leaks })
}
