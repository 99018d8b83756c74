//! Acts as they come, with the counts that change by each.
ghost use Rattle.std.specs.Prelude.{◌≡◌, ◌∷◌, ◌++◌, ◌≤◌, [], All, IfOk, IfSome, OnOk, length, map};
ghost use Rattle.step_core.specs.Runs.{NamesActor};
ghost use Rattle.step_core.specs.Worlds.{abstraction};
ghost use Rattle.step_table.specs.GhostStates.{model_state};
ghost use Rattle.step_threads.specs.AbstractStates.{AbstractState, state_in};
ghost use Rattle.script_stepper.specs.Lines.{said_lines};
ghost use Rattle.script_picture.specs.Acts.{IsRow, TellsCounts, bytes_of, seen_in};
ghost use Rattle.script_picture.specs.Pointers.{pointers_after};
ghost use Rattle.script_picture.specs.Recording.{Adds, Fits, RowsAre};

use crate::part::Part;
use crate::pointers::pointers_of;
use crate::source::{put_statement, spelled_in, written_at};
use crate::trace_label::Aimed;
use control_word::{Block, Counts};
use run_picture::{Change, Pointer, Row, Touch};
use script_stepper::put_lines;
use script_text::member_text;
use std::alloc::{AllocError, Global};
use std::fmt::Write;
use step_core::{Name, Said, Site, World};

/// Where acts come from: a script's statements and names by threads, run in a world of so many
/// threads and blocks.
#[derive(Drop)]
pub(crate) struct Source {
    pub alloc: Global,
    pub statements: Vec<Vec<Vec<u8>>>,
    pub names: Vec<Vec<String>>,
    pub threads: u8,
    pub blocks: u16,
}

/// The rows of a part of a run so far: how many acts came, but for those behind the part's next
/// one, and the counts of each block, from 0, as the rows tell them.
#[derive(Drop)]
pub(crate) struct Rows {
    pub source: Source,
    pub part: Part,
    pub acts: u64,
    pub shown: Vec<Option<Counts>>,
    pub list: Vec<Row>,
}

/// An act or a step that a thread made.
#[derive(Clone, Copy)]
pub(crate) struct Made {
    pub thread: u8,
    pub said: Said,
    pub word: &'static str,
    pub name: Option<Name>,
    pub aimed: Option<Aimed>,
}

/// No rows yet.
pub(crate) fn no_rows(source: Source, part: Part) -> Result<Rows, AllocError>
    ensures none { IfOk result (λ rows. RowsAre rows []) }
    ensures part { IfOk result (λ rows. rows.part ≡ part) }
    ensures blocks { IfOk result (λ rows. rows.source.blocks ≡ source.blocks) }
{
    let alloc = source.alloc;
    let shown = vec![in alloc; None; usize::from(source.blocks) + 1]?;
    Ok(Rows {
        source,
        part,
        acts: 0,
        shown,
        list: Vec::new(alloc),
    })
}

/// Adds the counts of a block, where they are others than were told last.
fn add_change(
    world: &World,
    block: u16,
    shown: &mut Vec<Option<Counts>>,
    changes: &mut Vec<Change>,
) -> Result<(), AllocError>
    requires some { 1 ≤ block }
    requires within { block ≤ world.now.ghost_state.extent.shape.blocks }
    requires told { All (TellsCounts (model_state world.now.ghost_state)) changes.old.items }
    ensures { OnOk result (All (TellsCounts (model_state world.now.ghost_state)) changes.new.items) }
{
    let index = usize::from(block);
    if index < shown.len() {
        let block = u32::from(block);
        let counts = world.counts(Block::numbered(block));
        if counts != shown[index] {
            changes.push(Change { block, counts })?;
            shown[index] = counts;
        }
    }
    Ok(())
}

/// One of the blocks that a thread has, each of which has so many, if there is one of this number.
fn block_at(blocks: u16, each: usize, thread: usize, number: usize) -> Option<u16>
    ensures some { IfSome result (λ block. 1 ≤ block) }
    ensures within { IfSome result (λ block. block ≤ blocks) }
{
    let before = thread.saturating_mul(each).saturating_add(number);
    if before < usize::from(blocks) {
        Some(before as u16 + 1)
    } else {
        None
    }
}

/// Adds the counts of a thread's blocks that have been in use, where they are others than were told
/// last.
fn add_changes(
    world: &World,
    source: &Source,
    thread: u8,
    shown: &mut Vec<Option<Counts>>,
    changes: &mut Vec<Change>,
) -> Result<(), AllocError>
    requires blocks { source.now.blocks ≤ world.now.ghost_state.extent.shape.blocks }
    requires told { All (TellsCounts (model_state world.now.ghost_state)) changes.old.items }
    ensures { OnOk result (All (TellsCounts (model_state world.now.ghost_state)) changes.new.items) }
{
    let each = usize::from(source.blocks) / usize::from(source.threads.max(1));
    for number in 0..each.min(world.made() as usize) {
        if let Some(block) = block_at(source.blocks, each, usize::from(thread), number) {
            add_change(world, block, shown, changes)?;
        }
    }
    Ok(())
}

/// The counts of all blocks that are others than were told last. Each thread takes its least vacant
/// block, so that no more of its blocks than objects were made have been in use.
fn changes_of(
    world: &World,
    source: &Source,
    shown: &mut Vec<Option<Counts>>,
) -> Result<Vec<Change>, AllocError>
    requires { source.now.blocks ≤ world.now.ghost_state.extent.shape.blocks }
    ensures { IfOk result (λ v. All (TellsCounts (model_state world.now.ghost_state)) v.items) }
{
    let mut changes = Vec::new(source.alloc);
    for thread in 0..source.threads {
        add_changes(world, source, thread, shown, &mut changes)?;
    }
    Ok(changes)
}

/// What is said of a cell that was written or read: the member's name, and what was written, `bN`
/// or `empty`.
fn touch_text(alloc: Global, aimed: Aimed) -> Result<String, AllocError> {
    let mut shown = String::new(alloc);
    if let Site::Member { member, .. } = aimed.cell {
        shown.push_str(member_text(member))?;
        shown.push_str(" ")?;
    }
    if aimed.writes {
        match aimed.block {
            Some(block) => {
                let number = block.number();
                write!(shown, "b{number}")?;
            }
            None => shown.push_str("empty")?,
        }
    }
    Ok(shown)
}

fn touch_of(alloc: Global, aimed: Option<Aimed>) -> Result<Option<Touch>, AllocError> {
    match aimed {
        None => Ok(None),
        Some(aimed) => Ok(Some(Touch {
            cell: aimed.cell,
            writes: aimed.writes,
            shown: touch_text(alloc, aimed)?,
        })),
    }
}

/// Adds the line of what an act said, if there is one.
fn add_line(
    alloc: Global,
    thread: u8,
    said: Said,
    lines: &mut Vec<String>,
) -> Result<(), AllocError>
    requires { length (said_lines thread said) ≤ 1 }
    ensures { OnOk result (map bytes_of lines.new.items
        ≡ map bytes_of lines.old.items ++ said_lines thread said) }
{
    let mut text = String::new(alloc);
    put_lines(&mut text, thread, &[said])?;
    if text.is_empty() {
        return Ok(());
    }
    let end = text.len() - 1;
    text.truncate(end);
    lines.push(text)?;
    Ok(())
}

/// The line of an answer, and then that of an object that ended.
fn lines_of(alloc: Global, thread: u8, said: Said) -> Result<Vec<String>, AllocError>
    ensures { IfOk result (λ lines. map bytes_of lines.items ≡ said_lines thread said) }
{
    let answered = Said {
        statement: said.statement,
        answer: said.answer,
        ended: None,
    };
    let over = Said {
        statement: said.statement,
        answer: None,
        ended: said.ended,
    };
    let mut lines = Vec::new(alloc);
    add_line(alloc, thread, answered, &mut lines)?;
    add_line(alloc, thread, over, &mut lines)?;
    Ok(lines)
}

/// What stands behind the place of an act: its statement as it is written, or at a thread's end the
/// name that leaves.
fn written_of<'a>(source: &'a Source, made: &Made) -> Option<&'a [u8]> {
    if made.said.statement == 0 {
        spelled_in(source.names.as_slice(), made.thread, made.name?)
    } else {
        written_at(
            source.statements.as_slice(),
            made.thread,
            made.said.statement,
        )
    }
}

/// What is so after an act: the counts that changed, and the pointers that its thread and the cells
/// have.
#[derive(Drop)]
struct After {
    changes: Vec<Change>,
    pointers: Vec<Pointer>,
}

/// The row of an act.
fn row_of(source: &Source, number: u32, made: Made, after: After) -> Result<Row, AllocError>
    ensures { IfOk result (λ row. (c : AbstractState) → All (TellsCounts (state_in c)) after.changes.items
        → after.pointers.items ≡ pointers_after c made.thread
        → IsRow (number, seen_in c (made.thread, made.said)) row) }
{
    let alloc = source.alloc;
    let After { changes, pointers } = after;
    let written = written_of(source, &made);
    let Made {
        thread,
        said,
        word,
        aimed,
        ..
    } = made;
    let mut statement = String::new(alloc);
    put_statement(&mut statement, thread, said.statement, written)?;
    Ok(Row {
        number,
        thread,
        statement,
        word,
        lines: lines_of(alloc, thread, said)?,
        touch: touch_of(alloc, aimed)?,
        changes,
        pointers,
    })
}

/// Adds an act or a step that was made, if it is one of the part.
pub(crate) fn add_row(world: &World, made: Made, rows: &mut Rows) -> Result<(), AllocError>
    requires fits { Fits rows.old.source world.now }
    requires thread { NamesActor (length world.now.frame_views) made.thread }
    ensures { OnOk result (Adds (seen_in (abstraction world.now) (made.thread, made.said) ∷ [])
        rows.old rows.new) }
{
    if rows.acts > u64::from(rows.part.last) {
        return Ok(());
    }
    rows.acts += 1;
    if !rows.part.has(rows.acts) {
        return Ok(());
    }
    let changes = changes_of(world, &rows.source, &mut rows.shown)?;
    let pointers = pointers_of(rows.source.alloc, world, made.thread, rows.source.blocks)?;
    let row = row_of(
        &rows.source,
        rows.acts as u32,
        made,
        After { changes, pointers },
    )?;
    rows.list.push(row)?;
    Ok(())
}
