//! The answer to the text of a graph.

ghost use Rattle.std.specs.Prelude.{◌≡◌, IfSome, IfOk, IfErr, IsTrue, nat_lt, string_bytes, All};
ghost use Rattle.owner_text.specs.Prelude.{AreFindings, ended};
ghost use Rattle.owner_graph.specs.Owners.{IsAmong};
ghost use Rattle.owner_text.specs.Answers.{IsOwnersText, report_lines};
ghost use Rattle.owner_text.specs.Drafts.{draft_of};
ghost use Rattle.owner_text.specs.Grammar.{Refuses};
ghost use Rattle.owner_text.specs.Lines.{all_lines, leaked_in, vertices_of};

use crate::draft::Draft;
use crate::drawing::drawn;
use crate::fault::Fault;
use crate::knots::put_knots;
use crate::lines::put_totals;
use crate::listing::{leaked_in, objects_in, put_objects};
use crate::text::read;
use owner_graph::{Findings, Holding};
use std::alloc::{AllocError, Global};

/// The report of a graph: its text, and whether something leaks (own).
#[derive(Drop)]
pub struct Report {
    pub text: String,
    pub leaks: bool,
}

/// Whether the objects of all handles are among so many.
fn are_among(handles: &[Holding], vertices: u32) -> bool
    ensures { IsTrue result → All (IsAmong vertices) handles.now }
{
    handles
        .iter()
        .all(|handle| handle.from <= vertices && handle.to <= vertices)
}

/// The greatest number up to which a graph has objects, where all of its handles are among these.
fn vertices_of(draft: &Draft) -> Option<u32>
    ensures { IfSome result (λ n. (n ≡ vertices_of (draft_of draft.now))
        × All (IsAmong n) draft.now.handles.items) }
{
    let count = draft.objects.len();
    if count == 0 || count > 0xffff_ffff {
        return None;
    }
    let vertices = (count - 1) as u32;
    if !are_among(draft.handles.as_slice(), vertices) {
        return None;
    }
    Some(vertices)
}

/// All lines of a graph.
fn listed(
    alloc: Global,
    draft: &Draft,
    found: &Findings,
    vertices: u32,
) -> Result<String, AllocError>
    requires vertices { vertices ≡ vertices_of (draft_of draft.now) }
    requires found { AreFindings vertices draft.now.handles.items found.now }
    ensures { IfOk result (λ text. string_bytes text
        ≡ ended (all_lines (draft_of draft.now) found.now)) }
{
    let mut text = String::new(alloc);
    put_objects(&mut text, draft, found, vertices)?;
    put_knots(alloc, &mut text, draft, found, vertices)?;
    let objects = objects_in(draft, vertices);
    let leaked = leaked_in(draft, found, vertices);
    put_totals(&mut text, objects, draft.handles.len(), leaked)?;
    Ok(text)
}

/// The report of a graph, as lines or as a drawing.
fn answer(
    alloc: Global,
    draft: &Draft,
    draws: bool,
    vertices: u32,
) -> Result<(Findings, Report), AllocError>
    requires vertices { vertices ≡ vertices_of (draft_of draft.now) }
    requires among { All (IsAmong vertices) draft.now.handles.items }
    ensures found { IfOk result (λ p. AreFindings vertices draft.now.handles.items p.0) }
    ensures says { IfOk result (λ p. string_bytes p.1.text
        ≡ ended (report_lines draws (draft_of draft.now) p.0)) }
    ensures leaks { IfOk result (λ p. p.1.leaks ≡ nat_lt 0 (leaked_in (draft_of draft.now) p.0)) }
{
    let found = Findings::new(alloc, vertices, draft.handles.as_slice())?;
    let text = if draws {
        drawn(alloc, draft, &found, vertices)?
    } else {
        listed(alloc, draft, &found, vertices)?
    };
    let leaks = leaked_in(draft, &found, vertices) > 0;
    Ok((found, Report { text, leaks }))
}

/// Tells of each object of a graph whether it is kept, leaked, or has ended, and who holds it, and
/// of each knot of leaked objects what ties it, and what would let it end; or draws it (own). What
/// is reported is so of the graph that the text spells.
///
/// Refused by 10, with the number of the first faulty line, from 1, and its cause, just where a
/// line is faulty; by 1 where a growth is refused.
pub fn owners_text(alloc: Global, bytes: &[u8], draws: bool) -> Result<Report, Fault>
    ensures report { IfOk result (λ r. IsOwnersText draws bytes.now r.leaks
        (string_bytes r.text)) }
    ensures refused { IfErr result (λ fault. Refuses fault bytes.now) }
{
    let draft = match read(alloc, bytes) {
        Ok(draft) => draft,
        Err(fault) => return Err(fault),
    };
    let Some(vertices) = vertices_of(&draft) else {
        return Err(Fault::Memory);
    };
    match answer(alloc, &draft, draws, vertices) {
        Ok((found, report)) => {
            let _ = found;
            Ok(report)
        }
        Err(_) => Err(Fault::Memory),
    }
}
