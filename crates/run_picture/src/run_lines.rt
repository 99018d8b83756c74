//! A run as lines: each act, and what is so after it.

ghost use Rattle.std.specs.Prelude.{◌≡◌, ◌++◌, OnOk, codes, decimal, string_bytes};
ghost use Rattle.std.specs.List.{flat_map};
ghost use Rattle.run_picture.specs.Pages.{act_line, at_line, change_line, holder_text, kind_text};
ghost use Rattle.run_picture.specs.Pages.{left_block_line, left_lines, pointer_line, row_lines};
ghost use Rattle.run_picture.specs.Pages.{run_lines, said_line, totals_line};

use crate::changes::put_counts_text;
use crate::picture::{Change, Holder, Left, LeftBlock, Picture, Pointer, Row};
use control_word::{Block, Site};
use std::alloc::AllocError;
use std::fmt::Write;

/// Adds the line of an act: its number, its thread, and what it did.
fn put_act(text: &mut String, row: &Row) -> Result<(), AllocError>
    ensures { OnOk result (string_bytes text.new ≡ string_bytes text.old ++ act_line row.now) }
{
    let number = row.number;
    let thread = row.thread;
    write!(text, "act {number} {thread} ")?;
    text.push_str(row.word)?;
    text.push_str("\n")?;
    Ok(())
}

/// Adds the line of a statement.
fn put_at(text: &mut String, row: &Row) -> Result<(), AllocError>
    ensures { OnOk result (string_bytes text.new ≡ string_bytes text.old ++ at_line row.now) }
{
    text.push_str("at ")?;
    text.push_str(row.statement.as_str())?;
    text.push_str("\n")?;
    Ok(())
}

/// Adds the line of what an act said.
fn put_said(text: &mut String, line: &String) -> Result<(), AllocError>
    ensures { OnOk result (string_bytes text.new ≡ string_bytes text.old ++ said_line line.now) }
{
    text.push_str("said ")?;
    text.push_str(line.as_str())?;
    text.push_str("\n")?;
    Ok(())
}

/// Adds the lines of all that an act said, in order.
fn put_all_said(text: &mut String, lines: &[String]) -> Result<(), AllocError>
    ensures { OnOk result
        (string_bytes text.new ≡ string_bytes text.old ++ flat_map said_line lines.now) }
{
    for line in lines {
        put_said(text, line)?;
    }
    Ok(())
}

/// Adds the line of counts that changed.
fn put_change(text: &mut String, change: Change) -> Result<(), AllocError>
    ensures { OnOk result (string_bytes text.new ≡ string_bytes text.old ++ change_line change) }
{
    let block = change.block;
    write!(text, "block {block} ")?;
    put_counts_text(text, change.counts)?;
    text.push_str("\n")?;
    Ok(())
}

/// Adds the lines of all counts that changed, in order.
fn put_changes(text: &mut String, changes: &[Change]) -> Result<(), AllocError>
    ensures { OnOk result
        (string_bytes text.new ≡ string_bytes text.old ++ flat_map change_line changes.now) }
{
    for change in changes {
        put_change(text, *change)?;
    }
    Ok(())
}

/// Adds two numbers behind a word, each with a space.
fn put_pair(text: &mut String, word: &str, first: u32, second: u32) -> Result<(), AllocError>
    ensures { OnOk result (string_bytes text.new
        ≡ string_bytes text.old ++ (word.now ++ (decimal first ++ codes " " ++ decimal second ++ codes " "))) }
{
    text.push_str(word)?;
    write!(text, "{first} {second} ")?;
    Ok(())
}

/// Adds where a pointer is.
fn put_holder(text: &mut String, holder: Holder) -> Result<(), AllocError>
    ensures { OnOk result (string_bytes text.new ≡ string_bytes text.old ++ holder_text holder) }
{
    match holder {
        Holder::Name { thread, number } => {
            put_pair(text, "name ", u32::from(thread), u32::from(number))
        }
        Holder::Cell(Site::Free { number }) => {
            write!(text, "free {number} ")?;
            Ok(())
        }
        Holder::Cell(Site::Member { block, member }) => {
            put_pair(text, "member ", block.number(), u32::from(member))
        }
    }
}

/// What a pointer is.
fn kind_word(is_owner: bool) -> &'static str
    ensures { result.now ≡ kind_text is_owner }
{
    if is_owner { "owner" } else { "weak" }
}

/// Adds the line of a pointer: where it is, what it is, and on which block.
fn put_pointer(text: &mut String, pointer: Pointer) -> Result<(), AllocError>
    ensures { OnOk result (string_bytes text.new ≡ string_bytes text.old ++ pointer_line pointer) }
{
    put_holder(text, pointer.holder)?;
    text.push_str(kind_word(pointer.is_owner))?;
    let block = pointer.block;
    writeln!(text, " {block}")?;
    Ok(())
}

/// Adds the lines of pointers, in order.
fn put_pointers(text: &mut String, pointers: &[Pointer]) -> Result<(), AllocError>
    ensures { OnOk result
        (string_bytes text.new ≡ string_bytes text.old ++ flat_map pointer_line pointers.now) }
{
    for pointer in pointers {
        put_pointer(text, *pointer)?;
    }
    Ok(())
}

/// Adds the lines of a row.
fn put_row(text: &mut String, row: &Row) -> Result<(), AllocError>
    ensures { OnOk result (string_bytes text.new ≡ string_bytes text.old ++ row_lines row.now) }
{
    put_act(text, row)?;
    put_at(text, row)?;
    put_all_said(text, row.lines.as_slice())?;
    put_changes(text, row.changes.as_slice())?;
    put_pointers(text, row.pointers.as_slice())?;
    Ok(())
}

/// Adds the lines of rows, in order.
fn put_rows(text: &mut String, rows: &[Row]) -> Result<(), AllocError>
    ensures { OnOk result
        (string_bytes text.new ≡ string_bytes text.old ++ flat_map row_lines rows.now) }
{
    for row in rows {
        put_row(text, row)?;
    }
    Ok(())
}

/// Adds the line of a block that is left.
fn put_left_block(text: &mut String, left: LeftBlock) -> Result<(), AllocError>
    ensures { OnOk result (string_bytes text.new ≡ string_bytes text.old ++ left_block_line left) }
{
    let block = left.block;
    write!(text, "left {block} ")?;
    text.push_str(left.color)?;
    text.push_str("\n")?;
    Ok(())
}

/// Adds the lines of the blocks that are left, in order.
fn put_left_blocks(text: &mut String, blocks: &[LeftBlock]) -> Result<(), AllocError>
    ensures { OnOk result
        (string_bytes text.new ≡ string_bytes text.old ++ flat_map left_block_line blocks.now) }
{
    for left in blocks {
        put_left_block(text, *left)?;
    }
    Ok(())
}

/// Adds the last line of a run.
fn put_totals(text: &mut String, totals: &String) -> Result<(), AllocError>
    ensures { OnOk result (string_bytes text.new ≡ string_bytes text.old ++ totals_line totals.now) }
{
    text.push_str("totals ")?;
    text.push_str(totals.as_str())?;
    text.push_str("\n")?;
    Ok(())
}

/// Adds the lines of what is left at a run's end, if that is known.
fn put_left(text: &mut String, left: &Option<Left>) -> Result<(), AllocError>
    ensures { OnOk result (string_bytes text.new ≡ string_bytes text.old ++ left_lines left.now) }
{
    match left {
        Some(left) => {
            put_left_blocks(text, left.blocks.as_slice())?;
            put_totals(text, &left.totals)
        }
        None => Ok(()),
    }
}

/// Adds the lines of a run: what its script says, each act, and what is left.
pub(crate) fn put_run(text: &mut String, picture: &Picture) -> Result<(), AllocError>
    ensures { OnOk result (string_bytes text.new ≡ string_bytes text.old ++ run_lines picture.now) }
{
    text.push_str(picture.script.as_str())?;
    put_rows(text, picture.rows.as_slice())?;
    put_left(text, &picture.left)?;
    Ok(())
}
