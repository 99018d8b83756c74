//! Objects end in rounds of a pile, and their values come into slots.
ghost use Rattle.std.specs.Prelude.{◌≡◌, ◌+◌, ◌≤◌, length};
ghost use Rattle.control_block.specs.Desks.{IsSameDesk, bag_of};
ghost use Rattle.shared_handle.specs.Piles.{Carries};
ghost use Rattle.scene_structures.specs.Teardowns.{HasRoomForEnds, RunsDown, empty_slots};
ghost use Rattle.scene_structures.specs.Others.{KeepsOthers};

use crate::tree::ended::Ended;
use control_block::desk::Desk;
use control_block::domain::Domain;
use shared_handle::Pile;

/// Rounds of the pile, until no slot is empty; but at most one a block for each member of an object and one for its
/// end, and none when more objects have ended than there are blocks.
pub(crate) fn run_down<V: Drop>(
    domain: &Domain<V>,
    desk: &mut Desk<V>,
    pile: &mut Pile<V>,
    ended: &mut Ended<V>,
)
    requires carries { Carries domain.now desk.old pile.old }
    requires vacant { ended.old.vacant.items ≡ empty_slots 0 ended.old.slots.items }
    requires room { HasRoomForEnds (domain.now.shape.blocks + 1) ended.old }
    requires few { length ended.old.slots.items ≤ domain.now.shape.blocks + 1 }
    ensures carries { Carries domain.now desk.new pile.new }
    ensures others { KeepsOthers desk.old pile.old.endings.items desk.new pile.new.endings.items }
    ensures bag { bag_of desk.new ≡ bag_of desk.old }
    ensures held { desk.new.held ≡ desk.old.held }
    ensures desk { IsSameDesk desk.old desk.new }
    ensures room { HasRoomForEnds (domain.now.shape.blocks + 1) ended.new }
    ensures few { length ended.new.slots.items ≤ domain.now.shape.blocks + 1 }
    ensures rounds { RunsDown domain.now.shape desk.old pile.old.endings.items ended.old.slots.items desk.new
        pile.new.endings.items ended.new.slots.items }
{
    let blocks = domain.blocks();
    let most = (domain.members() as usize + 1) * blocks as usize;
    let mut rounds = 0;
    while !ended.is_over(rounds, most, blocks) {
        let round = pile.round(domain, desk);
        ended.take(round);
        rounds += 1;
    }
}
