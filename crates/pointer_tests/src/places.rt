//! What callers of cells prove with no proof file.
ghost use Rattle.std.specs.Prelude.{◌≡◌, IfOk, OnOk, Some, false};
ghost use Rattle.control_word.specs.declared.model.handle.Kind.TheVariants.{Owner};
ghost use Rattle.pointers.specs.SiteCalls.{Compared, Exchanged, Stored};
ghost use Rattle.pointers.specs.Sites.{free_site, member_site};

use pointers::{Desk, Domain, Fault, Shared, SharedCell};
use std::sync::Wait;

/// A child is hung under its parent.
pub fn hangs<'t, D: Domain>(parent: &Shared<'t, D>, child: Shared<'t, D>) -> Result<(), Fault>
    ensures { OnOk result (Stored D.opened Owner (member_site parent.now 0) (Some child.entry)) }
{
    parent.first().store(Some(child))
}

/// A part goes into the place of its number.
pub fn takes<'t, D: Domain>(
    whole: &Shared<'t, D>,
    number: u8,
    part: Shared<'t, D>,
) -> Result<(), Fault>
    ensures { OnOk result (Stored D.opened Owner (member_site whole.now number) (Some part.entry)) }
{
    whole.owner(number).store(Some(part))
}

/// What was first goes, and another comes.
pub fn replaces<'t, D: Domain>(
    desk: &'t Desk<'t, D>,
    cell: SharedCell,
    new: Shared<'t, D>,
) -> Result<Option<Shared<'t, D>>, Fault>
    ensures { IfOk result (Exchanged D.opened Owner (free_site cell.0) (Some new.entry)) }
{
    desk.cell(cell).exchange(Some(new))
}

/// What is expected is swapped for another, if the cell holds it.
pub fn swaps<'t, D: Domain, R: Wait>(
    rt: &R,
    desk: &'t Desk<'t, D>,
    cell: SharedCell,
    expected: &mut Option<Shared<'t, D>>,
    new: &mut Option<Shared<'t, D>>,
) -> Result<bool, Fault>
    ensures { IfOk result (λ swapped. Compared D.opened Owner (free_site cell.0) false expected.old new.old swapped
        expected.new new.new) }
{
    desk.cell(cell).compare_exchange_strong(rt, expected, new)
}
