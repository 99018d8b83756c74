//! From a script's bytes to the picture of its run.
ghost use Rattle.std.specs.Prelude.{◌≡◌, ◌&&◌, ◌≤◌, [], ℕ, List, All, IfErr, IfOk, false, length};
ghost use Rattle.std.specs.Prelude.{nat_le, nat_lt, string_bytes, true};
ghost use Rattle.run_picture.specs.declared.picture.Picture.{Picture};
ghost use Rattle.script_text.specs.declared.fault.Fault.TheVariants.{Memory};
ghost use Rattle.script_stepper.specs.Ends.{IsRefused};
ghost use Rattle.script_stepper.specs.Runs.{Delivers, TellsRun, is_output};
ghost use Rattle.script_picture.specs.Acts.{Seen};
ghost use Rattle.script_picture.specs.Parts.{shown_part};
ghost use Rattle.script_picture.specs.Pictures.{Draws, IsPictureText, ShowsAs};
ghost use Rattle.script_picture.specs.Recording.{IsRecorded};

use crate::left::left_of;
use crate::part::Part;
use crate::recorded::{Recorded, record_run};
use crate::source::script_lines;
use run_picture::{Picture, draw, run_page};
use script_stepper::turns::turns_of;
use script_stepper::{Sink, write_text};
use script_text::{Fault, Script, parse};
use std::alloc::{AllocError, Global};
use step_table::limits::SCRIPT_SHARED_CELLS;

/// What is to be drawn: a script's run with a list of turns, by acts or by single steps, as one SVG
/// or as a page on which it is gone through act by act, and which of them.
#[derive(Clone, Copy)]
pub struct Order<'a> {
    pub script: &'a [u8],
    pub turns: &'a [u8],
    pub is_fine: bool,
    pub is_page: bool,
    pub part: Part,
}

/// The text of a picture; or that there is none, where the part and the run have more acts than one
/// shows, or the part begins behind the run's last act.
#[derive(Drop)]
struct Drawn {
    text: String,
    is_none: bool,
}

/// The picture of a run that was recorded; what is left at its end where the last act is one of the
/// part.
pub(crate) fn picture_of(alloc: Global, recorded: Recorded) -> Result<Picture, AllocError>
    ensures { IfOk result (λ picture. picture.rows.items ≡ recorded.rows.list.items) }
{
    let Recorded { rows, threads, end } = recorded;
    let script = script_lines(alloc, &rows.source)?;
    let left = if rows.acts <= u64::from(rows.part.last) {
        Some(left_of(alloc, &end)?)
    } else {
        None
    };
    Ok(Picture {
        threads,
        shared_cells: SCRIPT_SHARED_CELLS,
        script,
        rows: rows.list,
        left,
    })
}

/// A picture as one SVG, or as a page.
fn shown(alloc: Global, is_page: bool, picture: &Picture) -> Result<String, AllocError>
    ensures { IfOk result (λ text. ShowsAs is_page picture.now (string_bytes text)) }
{
    if is_page {
        run_page(alloc, picture)
    } else {
        draw(alloc, picture)
    }
}

/// The text of the picture of a run that was recorded.
fn picture_text(alloc: Global, is_page: bool, recorded: Recorded) -> Result<String, AllocError>
    ensures { IfOk result (λ text. (picture : Picture)
        × (picture.rows.items ≡ recorded.rows.list.items)
        × ShowsAs is_page picture (string_bytes text)) }
{
    let picture = picture_of(alloc, recorded)?;
    shown(alloc, is_page, &picture)
}

/// Whether a part has more acts than are shown, and as many came.
fn has_more(asked: Part, shown: Part, acts: u64) -> bool
    ensures { result ≡ (nat_lt shown.last asked.last && nat_lt shown.last acts) }
{
    shown.last < asked.last && u64::from(shown.last) < acts
}

/// Whether a part begins behind the last act of a run, of which so many came.
fn is_behind(asked: Part, acts: u64) -> bool
    ensures { result ≡ (nat_lt 1 asked.first && nat_lt acts asked.first && nat_le acts asked.last) }
{
    1 < asked.first && acts < u64::from(asked.first) && acts <= u64::from(asked.last)
}

/// No text of a picture.
fn not_drawn(alloc: Global) -> Drawn
    ensures none { result.is_none ≡ true }
    ensures text { string_bytes result.text ≡ [] }
{
    Drawn {
        text: String::new(alloc),
        is_none: true,
    }
}

/// The text of a picture, or that there is none.
fn draw_recorded(
    alloc: Global,
    is_page: bool,
    asked: Part,
    recorded: Recorded,
) -> Result<Drawn, AllocError>
    requires { recorded.rows.part ≡ shown_part asked }
    ensures { IfOk result (λ drawn. (seen : List Seen)
        → IsRecorded (shown_part asked) recorded.rows.acts recorded.rows.list.items seen
        → Draws is_page drawn.is_none asked seen (string_bytes drawn.text)) }
{
    if has_more(asked, recorded.rows.part, recorded.rows.acts) {
        return Ok(not_drawn(alloc));
    }
    if is_behind(asked, recorded.rows.acts) {
        return Ok(not_drawn(alloc));
    }
    Ok(Drawn {
        text: picture_text(alloc, is_page, recorded)?,
        is_none: false,
    })
}

/// Runs a script, and draws its run.
fn run_drawn(alloc: Global, script: &Script, turns: &[u8], order: Order<'_>) -> Result<Drawn, Fault>
    requires { All (λ thread. (1 ≤ thread) × (thread ≤ length script.now.threads)) turns.now }
    ensures ok { IfOk result (λ drawn. IsPictureText order.entry.is_fine order.entry.is_page order.entry.part
        (Ok drawn.is_none) script.now turns.now
        (string_bytes drawn.text)) }
    ensures memory { IfErr result (λ fault. fault ≡ Memory) }
{
    let recorded = record_run(alloc, script, turns, order)?;
    match draw_recorded(alloc, order.is_page, order.part, recorded) {
        Ok(drawn) => Ok(drawn),
        Err(_) => Err(Fault::Memory),
    }
}

/// Reads a script and a list of turns, and draws the run.
fn drawn_of(alloc: Global, order: Order<'_>) -> Result<Drawn, Fault>
    ensures told { IfOk result
        (λ drawn. TellsRun (IsPictureText order.entry.is_fine order.entry.is_page order.entry.part (Ok drawn.is_none))
        order.entry.script.now order.entry.turns.now (Ok (string_bytes drawn.text))) }
    ensures refused { IfErr result
        (λ fault. IsRefused order.entry.script.now order.entry.turns.now fault) }
{
    let script = parse(alloc, order.script)?;
    let turns = turns_of(alloc, order.turns, script.threads() as u8)?;
    run_drawn(alloc, &script, turns.as_slice(), order)
}

/// Runs a script with a list of turns, as [`script_stepper::step_text`] does, or by single steps,
/// as [`script_stepper::fine_text`] does, and writes a part of its run as the text of one SVG, or of
/// one HTML page (own). On it are the acts of the run whose numbers, from 1, are in the part, each
/// once and in their order: with its number, its thread, its statement and the lines that it said;
/// and nothing else but what stands above and below the rows. The counts that are told beside an
/// act are those of their blocks after it. Answers whether the part and the run have more acts than
/// one picture shows, or the part begins behind the run's last act; then nothing is written.
///
/// Refused, in this order: by 1 where a growth was refused, by 10 just where a line of the script
/// is faulty, by 11 just where a number of the list is, with nothing written; by 12 just where the
/// writer has failed, which then took a beginning of the text. The writer hasn't failed before.
pub fn draw_text<S: Sink>(alloc: Global, order: Order<'_>, writer: &mut S) -> Result<bool, Fault>
    requires { S.has_failed writer.old ≡ false }
    ensures holds { Delivers (TellsRun (IsPictureText order.entry.is_fine order.entry.is_page order.entry.part result)
        order.entry.script.now
        order.entry.turns.now) result (S.taken writer.old) (S.taken writer.new) }
    ensures failed { S.has_failed writer.new ≡ is_output result }
{
    let drawn = drawn_of(alloc, order)?;
    write_text(drawn.text.as_bytes(), writer)?;
    Ok(drawn.is_none)
}
