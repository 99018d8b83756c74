//! What an act does, in words, and which cell it writes or reads.
ghost use Rattle.std.specs.Prelude.{◌≡◌, ◌<◌, ◌≤◌, length};
ghost use Rattle.step_core.specs.Runs.{NamesActor};

use control_word::{Block, Place};
use step_core::{Act, Answer, CellName, Handle, Kind, Name, PendingCall, Said, Site, Stage, World};
use step_table::limits::SCRIPT_SHARED_CELLS;

/// A cell that an act wrote or read, and the block of what it wrote.
#[derive(Clone, Copy)]
pub(crate) struct Aimed {
    pub cell: Site,
    pub writes: bool,
    pub block: Option<Block>,
}

/// What a thread is about to do.
#[derive(Clone, Copy)]
pub(crate) struct TraceLabel {
    pub word: &'static str,
    pub pending_call: PendingCall,
    /// The name that leaves, where its thread is at its end.
    pub name: Option<Name>,
    aim: Option<Aim>,
}

/// The cell of an act, and the blocks of what it would put there.
#[derive(Clone, Copy)]
struct Aim {
    cell: Site,
    kind: AimKind,
    given: Option<Block>,
}

#[derive(Clone, Copy)]
enum AimKind {
    Writes,
    Reads,
    Compares,
}

fn block_of(pointer: Option<Handle>) -> Option<Block> {
    match pointer {
        Some(pointer) => Some(pointer.block),
        None => None,
    }
}

/// The block of the object that a pointer owns and points into.
fn object_of(pointer: Handle) -> Option<Block> {
    match (pointer.kind, pointer.place) {
        (Kind::Owner, Some(Place { block, .. })) => {
            if block == pointer.block {
                Some(block)
            } else {
                None
            }
        }
        _ => None,
    }
}

/// The cell that a thread names so; none where it is a member of an object that isn't there.
fn cell_of(world: &World, thread: u8, cell: CellName) -> Option<Site>
    requires { NamesActor (length world.now.frame_views) thread }
{
    match cell {
        CellName::Shared(number) => Some(Site::Free {
            number: u32::from(number),
        }),
        CellName::Weak(number) => Some(Site::Free {
            number: u32::from(number).saturating_add(SCRIPT_SHARED_CELLS),
        }),
        CellName::Member { name, member } => {
            let pointer = world.held(thread, name)?;
            let block = object_of(pointer)?;
            Some(Site::Member { block, member })
        }
    }
}

fn aim_with(
    world: &World,
    thread: u8,
    cell: CellName,
    kind: AimKind,
    given: Option<Block>,
) -> Option<Aim>
    requires { NamesActor (length world.now.frame_views) thread }
{
    let cell = cell_of(world, thread, cell)?;
    Some(Aim { cell, kind, given })
}

/// The cell of an act, if it has one.
fn aim_of(world: &World, thread: u8, act: Act) -> Option<Aim>
    requires { NamesActor (length world.now.frame_views) thread }
{
    let hand = block_of(world.in_hand(thread));
    match act {
        Act::Swap { cell } => aim_with(world, thread, cell, AimKind::Writes, hand),
        Act::Exchange { name, cell } => {
            let given = block_of(world.held(thread, Name(name)));
            aim_with(world, thread, cell, AimKind::Writes, given)
        }
        Act::Load { cell } | Act::Holds { cell, .. } => {
            aim_with(world, thread, cell, AimKind::Reads, None)
        }
        Act::Compare { cell, .. } => aim_with(world, thread, cell, AimKind::Compares, hand),
        _ => None,
    }
}

/// What an act does.
fn act_word(act: Act) -> &'static str {
    match act {
        Act::Make { .. } => "make",
        Act::Share { .. } | Act::Offer { .. } => "copy",
        Act::Alias { .. } => "alias",
        Act::Move { .. } => "move",
        Act::Downgrade { .. } => "watch",
        Act::Lock { .. } => "lock",
        Act::Put { .. } | Act::Leave { .. } | Act::Clear { .. } | Act::Drop => "leave",
        Act::Count { .. } => "count",
        Act::Expired { .. } => "expired",
        Act::Read { .. } => "read",
        Act::FromThis { .. } => "this",
        Act::Ask { .. } | Act::Holds { .. } => "ask",
        Act::Swap { .. } | Act::Exchange { .. } => "swap",
        Act::Load { .. } => "load",
        Act::Compare { .. } => "compare",
        Act::OnShelf { .. } => "shelf",
    }
}

/// The name that an act empties, as those of a thread's end do.
fn cleared_by(act: Act) -> Option<Name> {
    match act {
        Act::Clear { name } => Some(Name(name)),
        _ => None,
    }
}

/// What a thread is about to do: what it has begun, and its next act. Where an object ends in its
/// hands, that goes on, or what came out of a member of it leaves.
pub(crate) fn trace_label_of(world: &World, thread: u8) -> TraceLabel
    requires { NamesActor (length world.now.frame_views) thread }
{
    let pending_call = world.pending_call(thread);
    if world.has_ending(thread) {
        return TraceLabel {
            word: ending_word(world, thread),
            pending_call,
            name: None,
            aim: None,
        };
    }
    match world.next_act(thread) {
        Some(act) => TraceLabel {
            word: act_word(act),
            pending_call,
            name: cleared_by(act),
            aim: aim_of(world, thread, act),
        },
        None => TraceLabel {
            word: "end",
            pending_call,
            name: None,
            aim: None,
        },
    }
}

/// What a thread does in whose hands an object ends.
fn ending_word(world: &World, thread: u8) -> &'static str
    requires { NamesActor (length world.now.frame_views) thread }
{
    if world.in_hand(thread).is_some() {
        "leave"
    } else {
        "end the object"
    }
}

/// The cell that was written or read, where the act said this.
pub(crate) fn aimed_at(trace_label: &TraceLabel, said: &Said) -> Option<Aimed> {
    let Aim { cell, kind, given } = trace_label.aim?;
    if matches!(said.answer, Some(Answer::Refused(_))) {
        return None;
    }
    let writes = match kind {
        AimKind::Writes => true,
        AimKind::Reads => false,
        AimKind::Compares => said.answer == Some(Answer::Compared(true)),
    };
    Some(Aimed {
        cell,
        writes,
        block: if writes { given } else { None },
    })
}

/// What a step did that left a thread with this begun.
pub(crate) fn step_word(trace_label: &TraceLabel, after: PendingCall) -> &'static str {
    match after {
        PendingCall::Matched { .. } | PendingCall::Brought => "bring funds",
        _ => went_word(trace_label.pending_call, trace_label.word, after),
    }
}

/// The same where no funds were brought. By the last step of an act the act is made.
fn went_word(before: PendingCall, act: &'static str, after: PendingCall) -> &'static str {
    match before {
        PendingCall::Rest => begun_word(act, after),
        PendingCall::Making { .. } => {
            if is_begun(after) {
                "look or write"
            } else {
                act
            }
        }
        PendingCall::Matched { .. } => "compare",
        PendingCall::Saw { .. } => {
            if is_refilling(after) {
                "take a fund"
            } else {
                act
            }
        }
        PendingCall::Refill { stage, .. } => refill_word(stage),
        PendingCall::Returning { .. } => "give funds back",
        PendingCall::Clearing => "take out",
        PendingCall::Locking { .. } | PendingCall::Giving { .. } | PendingCall::Brought => act,
    }
}

/// What a step did by which a thread began this.
fn begun_word(act: &'static str, after: PendingCall) -> &'static str {
    match after {
        PendingCall::Saw { .. }
        | PendingCall::Locking { .. }
        | PendingCall::Giving { .. }
        | PendingCall::Clearing => "look",
        PendingCall::Making { .. } => "take the block",
        _ => act,
    }
}

/// Whether a thread is within an act.
fn is_begun(pending_call: PendingCall) -> bool {
    !matches!(pending_call, PendingCall::Rest)
}

/// Whether a thread has a fund of a cell to turn, or funds to put back.
fn is_refilling(pending_call: PendingCall) -> bool {
    matches!(pending_call, PendingCall::Refill { .. })
}

/// What a step did that went on with a load.
fn refill_word(stage: Stage) -> &'static str {
    match stage {
        Stage::Turning => "turn the fund",
        Stage::Checking => "look",
        Stage::Lacking => "bring funds",
        Stage::Refilling => "refill",
        Stage::Failing => "give funds back",
    }
}
