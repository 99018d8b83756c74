//! The steps of a load of a cell, and of the refill by which it puts back what was taken of the cell's funds.
ghost use Rattle.std.specs.Prelude.{◌≡◌, ◌<◌, ◌≤◌, true, false, None, Some, IfErr, IfOk, IfSome, OnOk};
ghost use Rattle.control_word.specs.Packing.{IsCellWord};
ghost use Rattle.control_word.specs.declared.model.event.Event.TheVariants.{Load};
ghost use Rattle.control_block.specs.CellRetries.{IsAim, IsCounted, IsOut};
ghost use Rattle.control_block.specs.StepKinds.{HasRoomFor, HoldingInBlock, known};
ghost use Rattle.control_word.specs.Limits.{cell_funds};

use crate::pause::Pause;
use crate::step_kinds::StepArgs;
use crate::step_kinds::cells::CellArgs;
use crate::steps::{cells, funds};
use crate::table::{Seat, Table};
use control_word::model::handle::Kind;
use control_word::shape::CELL_FUNDS;
use control_word::{Block, PackedCell, Place};
use std::marker::Brand;
use std::sync::Wait;

/// A load puts the funds back once so many are taken.
const MANY_TAKEN: u32 = 128;

/// Whether a cell shows a handle in the block with this place, and many of its funds are taken.
fn is_drained(seen: PackedCell, block: Block, place: Option<Place>) -> bool
    ensures { result ≡ true → (seen.owned ≡ Some block) × (seen.taken ≤ cell_funds) }
{
    seen.owned() == Some(block)
        && seen.place() == place
        && (MANY_TAKEN..=CELL_FUNDS).contains(&seen.taken())
}

/// One try at a refill: where a cell holds what a handle of the desk's holds, and many of its funds are taken, as many
/// of the handle's own go into it, and are brought for the handle. True where nothing is left to do. Nobody sees a
/// difference but the words.
#[inline(always)]
fn try_refill<V, A: CellArgs, M: StepArgs>(
    table: &Table<V>,
    seat: &mut Seat<V>,
    word: usize,
    kind: Kind,
    block: Block,
    place: Option<Place>,
) -> bool
    requires aim { IsAim A.cell kind word table.now.table_id seat.old.table_id seat.old.me }
    requires holds { (M.kind ≡ kind) × HoldingInBlock seat.old.me.0 M.kind M.object M.place block.0 }
    requires count { IsCounted kind block table.now.table_id }
    ensures table { seat.new.table_id ≡ seat.old.table_id }
    ensures same { seat.new.me ≡ seat.old.me }
{
    let seen = cells::peek::<V, A>(table, seat, word);
    if !is_drained(seen, block, place) {
        return true;
    }
    if cells::refill::<V, A, Brand>(table, seat, word, seen) {
        funds::top_up(table, seat, kind, block, seen.taken());
        return true;
    }
    false
}

/// Refill: while a cell holds what a handle of the desk's holds, and many of its funds are taken, as many of the
/// handle's own go into it, and are brought for the handle (own). Nobody sees a difference but the words.
#[inline(never)]
fn refill<V, A: CellArgs, M: StepArgs, R: Wait>(
    rt: &R,
    table: &Table<V>,
    seat: &mut Seat<V>,
    word: usize,
    kind: Kind,
    block: Block,
    place: Option<Place>,
)
    requires aim { IsAim A.cell kind word table.now.table_id seat.old.table_id seat.old.me }
    requires holds { (M.kind ≡ kind) × HoldingInBlock seat.old.me.0 M.kind M.object M.place block.0 }
    requires count { IsCounted kind block table.now.table_id }
    ensures table { seat.new.table_id ≡ seat.old.table_id }
    ensures same { seat.new.me ≡ seat.old.me }
{
    let mut pause = Pause::new();
    for _ in rt.forever() {
        if try_refill::<V, A, M>(table, seat, word, kind, block, place) {
            return;
        }
        pause.give_way();
    }
    unreachable!()
}

/// Top up: a load that left many funds of a cell taken puts them back. The desk has the handle that the load gave.
#[inline(always)]
pub(crate) fn top_up<V, A: CellArgs, R: Wait>(
    rt: &R,
    table: &Table<V>,
    seat: &mut Seat<V>,
    word: usize,
    kind: Kind,
    block: Block,
    seen: PackedCell,
)
    requires aim { IsAim A.cell kind word table.now.table_id seat.old.table_id seat.old.me }
    requires seen { seen.taken < cell_funds }
    requires holds { HoldingInBlock seat.old.me.0 kind ((known seat.old.me.0).latest block.0) seen.place block.0 }
    requires count { IsCounted kind block table.now.table_id }
    ensures table { seat.new.table_id ≡ seat.old.table_id }
    ensures same { seat.new.me ≡ seat.old.me }
{
    if seen.taken() + 1 < MANY_TAKEN {
        return;
    }
    refill::<V, A, Brand, R>(rt, table, seat, word, kind, block, seen.place());
}

/// The block of a cell that shows an object and has a fund of its left.
fn with_fund(seen: PackedCell) -> Option<Block>
    ensures { IfSome result (λ b. (seen.owned ≡ Some b) × (seen.taken < cell_funds)) }
{
    if seen.taken() < CELL_FUNDS {
        seen.owned()
    } else {
        None
    }
}

/// One try at a load, by what the cell showed last: what it holds comes out as a handle more. Else nothing changes, and
/// what the cell shows by then is told.
#[inline(always)]
fn try_load<V, A: CellArgs, R: Wait>(
    rt: &R,
    table: &Table<V>,
    seat: &mut Seat<V>,
    word: usize,
    kind: Kind,
    seen: PackedCell,
) -> Result<PackedCell, PackedCell>
    requires aim { IsAim A.cell kind word table.now.table_id seat.old.table_id seat.old.me }
    requires seen { IsCellWord seen }
    requires room { HasRoomFor seat.old.me.0 }
    ensures table { seat.new.table_id ≡ seat.old.table_id }
    ensures loaded { IfOk result (λ x. IsOut (λ h. Load A.cell h) kind seat.old.me.0 x seat.new.me) }
    ensures missed { IfErr result (λ x. IsCellWord x × (seat.new.me ≡ seat.old.me)) }
{
    let Some(block) = with_fund(seen) else {
        let now = cells::look::<V, A>(table, seat, word);
        return match now.owned() {
            None => Ok(now),
            Some(_) => Err(now),
        };
    };
    match cells::take::<V, A>(table, seat, word, seen) {
        Ok(()) => {
            funds::turn(table, seat, kind, block);
            top_up::<V, A, R>(rt, table, seat, word, kind, block, seen);
            Ok(seen)
        }
        Err(found) => Err(found),
    }
}

/// A load of any cell, by what it showed last. It tries again while others change the cell, by what the failed step
/// found there, and while all its funds are taken: then it yields the processor after some tries.
#[cold]
#[inline(never)]
fn load_with_retries<V, A: CellArgs, R: Wait>(
    rt: &R,
    table: &Table<V>,
    seat: &mut Seat<V>,
    word: usize,
    kind: Kind,
    seen: PackedCell,
) -> PackedCell
    requires aim { IsAim A.cell kind word table.now.table_id seat.old.table_id seat.old.me }
    requires seen { IsCellWord seen }
    requires room { HasRoomFor seat.old.me.0 }
    ensures table { seat.new.table_id ≡ seat.old.table_id }
    ensures loaded { IsOut (λ h. Load A.cell h) kind seat.old.me.0 result seat.new.me }
{
    let mut seen = seen;
    let mut pause = Pause::new();
    for _ in rt.forever() {
        match try_load::<V, A, R>(rt, table, seat, word, kind, seen) {
            Ok(loaded) => return loaded,
            Err(found) => seen = found,
        }
        if seen.taken() >= CELL_FUNDS {
            pause.give_way();
        }
    }
    unreachable!()
}

/// A load's first try: what a cell holds comes out as a handle more, an empty one by the look alone, else by a fund
/// that is taken and turned into a handle. Where others change the cell meanwhile, or many of its funds would be left
/// taken, nothing changes, and what the cell shows by then is told.
#[inline(always)]
pub fn load_once<V, A: CellArgs>(
    table: &Table<V>,
    seat: &mut Seat<V>,
    word: usize,
    kind: Kind,
) -> Result<PackedCell, PackedCell>
    requires aim { IsAim A.cell kind word table.now.table_id seat.old.table_id seat.old.me }
    requires room { HasRoomFor seat.old.me.0 }
    ensures table { seat.new.table_id ≡ seat.old.table_id }
    ensures loaded { IfOk result (λ x. IsOut (λ h. Load A.cell h) kind seat.old.me.0 x seat.new.me) }
    ensures missed { IfErr result (λ x. IsCellWord x × (seat.new.me ≡ seat.old.me)) }
{
    let shown = cells::look::<V, A>(table, seat, word);
    let Some(block) = shown.owned() else {
        return Ok(shown);
    };
    if shown.taken() + 1 >= MANY_TAKEN {
        return Err(shown);
    }
    match cells::take::<V, A>(table, seat, word, shown) {
        Ok(()) => {
            funds::turn(table, seat, kind, block);
            Ok(shown)
        }
        Err(found) => Err(found),
    }
}

/// Load: what a cell holds comes out as a handle more ([util.smartptr.atomic.shared], [util.smartptr.atomic.weak]).
/// Where the first try doesn't do, it goes on by tries that may wait.
#[inline(always)]
pub fn load<V, A: CellArgs, R: Wait>(
    rt: &R,
    table: &Table<V>,
    seat: &mut Seat<V>,
    word: usize,
    kind: Kind,
) -> PackedCell
    requires aim { IsAim A.cell kind word table.now.table_id seat.old.table_id seat.old.me }
    requires room { HasRoomFor seat.old.me.0 }
    ensures table { seat.new.table_id ≡ seat.old.table_id }
    ensures loaded { IsOut (λ h. Load A.cell h) kind seat.old.me.0 result seat.new.me }
{
    let found = match load_once::<V, A>(table, seat, word, kind) {
        Ok(loaded) => return loaded,
        Err(found) => found,
    };
    load_with_retries::<V, A, R>(rt, table, seat, word, kind, found)
}
