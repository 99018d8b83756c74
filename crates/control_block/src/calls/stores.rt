//! A call of a desk that stores into a cell, for the crates above: a handle goes in, and what the cell held leaves. It
//! leaves by the step that gives its funds back.
ghost use Rattle.std.specs.Prelude.{◌≡◌, ◌+◌, cond, is_some, length};
ghost use Rattle.control_block.specs.Desks.{Belongs};
ghost use Rattle.control_block.specs.CellCalls.{HoldsHandle, IsOpenAt, cell_of_site, handle_in, without_handle};
ghost use Rattle.control_block.specs.Desks.{IsSameDesk, KeepsEndings, bag_of, endings_of, stock_of};
ghost use Rattle.control_block.specs.Leaving.{IsReleasedBy};
ghost use Rattle.control_block.specs.Own.{KeepsHeld};
ghost use Rattle.control_block.specs.Storing.{Replaces};

use crate::calls::put_by_out;
use crate::cell_calls::Content;
use crate::desk::Desk;
use crate::domain::Domain;
use crate::released::Released;
use crate::retries;
use crate::step_kinds::cells::CellArgs;
use control_word::Site;
use control_word::packed::layout::site_word;

/// A handle that the desk has goes into a cell, and what the cell held leaves ([util.smartptr.atomic.shared],
/// [util.smartptr.atomic.weak]). Where that was an object's last owner, its value is released, and it ends in the
/// desk's hands; a block that is vacant now is in the desk's store. It waits for nobody.
#[inline(always)]
pub fn store<V: Drop, A: CellArgs>(
    domain: &Domain<V>,
    desk: &mut Desk<V>,
    site: Site,
    new: Content,
) -> (Content, Released<V>)
    requires domain { Belongs desk.old domain.now }
    requires cell { IsOpenAt desk.old site new.kind × (A.cell ≡ cell_of_site desk.old site) }
    requires new { A.new ≡ handle_in desk.old new.kind new.word.block new.word.place }
    requires holds { HoldsHandle desk.old new.kind new.word.block new.word.place }
    ensures stored { Replaces new.kind desk.old A.cell A.new result.0.word.block result.0.word.place result.1 desk.new }
    ensures kind { IsReleasedBy new.kind result.1 }
    ensures bag { bag_of desk.new ≡ without_handle new.kind new.word.block new.word.place (bag_of desk.old) }
    ensures held { desk.new.held + 1 ≡ desk.old.held }
    ensures desk { IsSameDesk desk.old desk.new }
    ensures stock { length (stock_of desk.new) ≡ length (stock_of desk.old) + cond result.1.vacant 1 0 }
    ensures endings { KeepsEndings desk.old desk.new }
    ensures latest { KeepsHeld desk.old desk.new }
    ensures count { endings_of desk.new ≡ endings_of desk.old + cond (is_some result.1.value) 1 0 }
{
    desk.held -= 1; // here, since each locked instruction that follows waits for what was stored before it
    let table = &domain.table.shared;
    let word = site_word(domain.shape.blocks, site);
    let (out, released) = retries::stores::store::<V, A>(
        table,
        &mut desk.seat,
        word,
        new.kind,
        new.word,
    );
    desk.endings += u32::from(released.value.is_some());
    put_by_out(&mut desk.store, out, released.vacant);
    let content = Content {
        kind: new.kind,
        word: out.handle(),
    };
    (content, released)
}
