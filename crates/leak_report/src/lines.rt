//! The lines that tell what is left, as text.
ghost use Rattle.std.specs.Prelude.{◌≡◌, [], ◌∷◌, ◌++◌, OnOk, string_bytes, codes, decimal};
ghost use Rattle.leak_report.specs.Prelude.{AddsLines, flat_map, member_text};
ghost use Rattle.leak_report.specs.Cells.{block_cell_text, free_cell_text};
ghost use Rattle.leak_report.specs.Lines.{holder_lines, holder_text, kept_text, kind_text};
ghost use Rattle.leak_report.specs.Lines.{left_text};

use control_word::Counts;
use owner_graph::Holding;
use script_text::{member_text, put_number};
use std::alloc::AllocError;
use std::fmt::Write;

/// What a handle is.
fn kind_word(is_owner: bool) -> &'static str
    ensures { result.now ≡ kind_text is_owner }
{
    if is_owner { "owner" } else { "weak" }
}

/// Whether a block is kept.
fn kept_word(is_kept: bool) -> &'static str
    ensures { result.now ≡ kept_text is_kept }
{
    if is_kept { "kept" } else { "leaked" }
}

/// Adds a free cell's word.
pub(crate) fn put_free(text: &mut String, shared: u32, number: u32) -> Result<(), AllocError>
    ensures { OnOk result (string_bytes text.new ≡ string_bytes text.old ++ free_cell_text shared number) }
{
    if number < shared {
        put_number(text, "s", u64::from(number))
    } else {
        put_number(text, "w", u64::from(number - shared))
    }
}

/// Adds a member's word.
fn put_member(text: &mut String, block: u32, member: &str) -> Result<(), AllocError>
    ensures { OnOk result
        (string_bytes text.new ≡ string_bytes text.old ++ decimal block ++ codes "." ++ member.now) }
{
    write!(text, "{block}.{member}")?;
    Ok(())
}

/// The word of a member.
pub(crate) fn member_word(slot: u32) -> &'static str
    ensures { result.now ≡ member_text slot }
{
    match slot {
        0 => member_text(0),
        1 => member_text(1),
        _ => member_text(2),
    }
}

/// Adds the word of the cell of a handle.
pub(crate) fn put_cell(text: &mut String, shared: u32, holding: Holding) -> Result<(), AllocError>
    ensures { OnOk result (string_bytes text.new ≡ string_bytes text.old ++ block_cell_text shared holding) }
{
    if holding.from == 0 {
        return put_free(text, shared, holding.label);
    }
    put_member(text, holding.from, member_word(holding.label))
}

/// Adds how the line of a handle begins.
fn put_kind(text: &mut String, kind: &str) -> Result<(), AllocError>
    ensures { OnOk result
        (string_bytes text.new ≡ string_bytes text.old ++ codes "  " ++ kind.now ++ codes " in ") }
{
    write!(text, "  {kind} in ")?;
    Ok(())
}

/// Adds the line of a handle, by where it is.
fn put_holder(text: &mut String, shared: u32, holding: Holding) -> Result<(), AllocError>
    ensures { OnOk result (AddsLines text.old text.new (holder_lines shared holding)) }
{
    put_kind(text, kind_word(holding.is_owner))?;
    put_cell(text, shared, holding)?;
    text.push_str("\n")?;
    Ok(())
}

/// Adds the lines of handles, in order.
pub(crate) fn put_holders(
    text: &mut String,
    shared: u32,
    holdings: &[Holding],
) -> Result<(), AllocError>
    ensures { OnOk result (AddsLines text.old text.new (flat_map (holder_lines shared) holdings.now)) }
{
    for holding in holdings {
        put_holder(text, shared, *holding)?;
    }
    Ok(())
}

/// Adds how the line of a block ends.
fn put_kept(text: &mut String, word: &str) -> Result<(), AllocError>
    ensures { OnOk result (string_bytes text.new ≡ string_bytes text.old ++ codes " " ++ word.now ++ 10 ∷ []) }
{
    writeln!(text, " {word}")?;
    Ok(())
}

/// Adds the line of a block that isn't vacant.
pub(crate) fn put_block(
    text: &mut String,
    block: u16,
    counts: Counts,
    is_kept: bool,
) -> Result<(), AllocError>
    ensures { OnOk result (AddsLines text.old text.new (left_text block counts is_kept ∷ [])) }
{
    let Counts { owners, weaks } = counts;
    put_number(text, "block ", u64::from(block))?;
    put_number(text, " owners ", u64::from(owners))?;
    put_number(text, " weaks ", u64::from(weaks))?;
    put_kept(text, kept_word(is_kept))?;
    Ok(())
}
