//! A block that an object without weak handles left vacant, and one whose object is gone and watched: their weak counts
//! show one number, and the census tells them apart.
ghost use Rattle.std.specs.Prelude.{◌≡◌, ◌<◌};
ghost use Rattle.shared_handle.specs.Prelude.{Belongs, IsSameDesk};

use crate::desks::splits::closed;
use crate::ending::forgotten::forget_weak;
use crate::parts::end;
use crate::same::same;
use crate::shapes::shape;
use control_block::census::Census;
use control_block::desk::Desk;
use control_block::domain::{Domain, open};
use control_word::packed::layout::{WEAKS, block_word};
use control_word::{Block, Counts};
use shared_handle::make;
use std::alloc::Global;

/// The weak word of one weak handle in hand, which has its 256 funds there.
const WATCHED: u64 = 1_099_511_627_777;

// An object is made and ends. Where it is watched, a weak handle of it is forgotten before.
fn came_and_went(domain: &Domain<u64>, desk: &mut Desk<u64>, watched: bool)
    requires domain { Belongs desk.old domain.now }
    ensures desk { IsSameDesk desk.old desk.new }
{
    let Ok(owner) = make(domain, desk, [0; 4], false, 5) else {
        return;
    };
    if watched {
        forget_weak(domain, desk, &owner);
    }
    end(domain, desk, owner);
}

// The weak words of blocks 1 and 2.
fn weak_words(domain: &Domain<u64>, desk: &mut Desk<u64>) -> [u64; 2]
    requires domain { Belongs desk.old domain.now }
    requires blocks { 1 < domain.now.shape.blocks }
    ensures same { desk.new ≡ desk.old }
{
    [
        desk.observe(domain, block_word(Block::numbered(1), WEAKS)),
        desk.observe(domain, block_word(Block::numbered(2), WEAKS)),
    ]
}

// Whether a block is vacant by the census, and its counts.
fn told_of(census: &Census<u64>, block: Block) -> (bool, u32, u32) {
    let Counts { owners, weaks } = census.counts(block);
    (census.is_vacant(block), owners, weaks)
}

// What both words are once an object was watched in block 2, and one was not in block 1; and what the census tells.
fn told(alloc: Global) -> Option<([u64; 2], [(bool, u32, u32); 2])> {
    let Ok((domain, mut desk)) = open(alloc, shape(2, 8)) else {
        return None;
    };
    came_and_went(&domain, &mut desk, true);
    came_and_went(&domain, &mut desk, false);
    let words = weak_words(&domain, &mut desk);
    match closed(domain, desk) {
        Some(census) => {
            let (one, two) = (Block::numbered(1), Block::numbered(2));
            Some((words, [told_of(&census, one), told_of(&census, two)]))
        }
        None => None,
    }
}

#[test]
fn a_kept_block_is_vacant_and_a_watched_one_is_not(rt: HostRuntime) {
    same(
        &rt,
        told(rt.alloc()),
        Some(([1, WATCHED], [(true, 0, 0), (false, 0, 1)])),
    );
}
