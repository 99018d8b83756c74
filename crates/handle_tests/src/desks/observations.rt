//! What the words of a block say to one desk, and to two.
ghost use Rattle.std.specs.Prelude.{◌≡◌, ◌<◌};
ghost use Rattle.shared_handle.specs.Prelude.{Belongs};

use crate::desks::splits::{abandon, cut};
use crate::parts::{end, shape};
use crate::same::same;
use control_block::desk::Desk;
use control_block::domain::{Domain, open};
use control_word::Block;
use control_word::packed::layout::{FIELDS, FLAGS, OWNERS, WEAKS, block_word};
use shared_handle::make;
use std::alloc::Global;

/// An owner's word of one owner in hand, which has its 256 funds there.
const ONE_OWNER: u64 = 1_099_511_627_777;

/// The words of block 1: owners, weak handles, flags, and fields 0 and 3.
type Words = [u64; 5];

// What one desk finds.
fn words(domain: &Domain<u64>, desk: &mut Desk<u64>) -> Words
    requires domain { Belongs desk.old domain.now }
    requires blocks { 0 < domain.now.shape.blocks }
    ensures same { desk.new ≡ desk.old }
{
    let block = Block::numbered(1);
    [
        desk.observe(domain, block_word(block, OWNERS)),
        desk.observe(domain, block_word(block, WEAKS)),
        desk.observe(domain, block_word(block, FLAGS)),
        desk.observe(domain, block_word(block, FIELDS)),
        desk.observe(domain, block_word(block, FIELDS + 3)),
    ]
}

// What two desks find of the owners: none, one of an object that was made, and none once it has ended.
fn owners_for_two(
    domain: &Domain<u64>,
    desk: &mut Desk<u64>,
    other: Desk<u64>,
) -> Option<([u64; 3], Words)>
    requires domain { Belongs desk.old domain.now × Belongs other domain.now }
    requires blocks { 0 < domain.now.shape.blocks }
{
    let word = block_word(Block::numbered(1), OWNERS);
    let (none, other) = desk.observe_with(domain, other, word);
    let Ok(owner) = make(domain, desk, [1, 2, 3, 4], true, 9) else {
        desk.join(domain, other);
        return None;
    };
    let made = words(domain, desk);
    let (one, other) = desk.observe_with(domain, other, word);
    end(domain, desk, owner);
    let (ended, other) = desk.observe_with(domain, other, word);
    desk.join(domain, other);
    Some(([none, one, ended], made))
}

// The same of a desk that is cut in two and joined.
fn observed(alloc: Global) -> Option<([u64; 3], Words)> {
    let Ok((domain, mut desk)) = open(alloc, shape(1, 8)) else {
        return None;
    };
    let found = match cut(&domain, &mut desk, alloc, 3, 0) {
        Ok(other) => owners_for_two(&domain, &mut desk, other),
        Err(_) => None,
    };
    abandon(domain, desk);
    found
}

#[test]
fn words_are_told_to_one_desk_and_to_two(rt: HostRuntime) {
    same(
        &rt,
        observed(rt.alloc()),
        Some(([0, ONE_OWNER, 0], [ONE_OWNER, 1, 1, 1, 4])),
    );
}
