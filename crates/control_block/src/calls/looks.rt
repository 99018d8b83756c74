//! Calls that look at what is fixed of an object.
ghost use Rattle.std.specs.Prelude.{◌≡◌, ℕ, ◌<◌, slice_index};
ghost use Rattle.control_word.specs.Packing.{IsBlock};
ghost use Rattle.control_block.specs.Desks.{Belongs, IsNear, object_in};
ghost use Rattle.control_block.specs.StepKinds.{IsTold};

use crate::desk::Desk;
use crate::domain::Domain;
use crate::steps;
use control_word::Block;
use control_word::packed::layout::{ENABLED, NULL};
use std::marker::Brand;

/// A word of the flags and fields of the object in the block: the flags are word 0, the fields words 1 to 4.
fn peek<V: Drop>(domain: &Domain<V>, desk: &mut Desk<V>, block: Block, word: usize) -> u64
    requires domain { Belongs desk.old domain.now }
    requires near { IsNear desk.old block.0 }
    requires word { word < 5 }
    ensures block { IsBlock block }
    ensures told { IsTold word (object_in desk.old block.0) result }
    ensures same { desk.new ≡ desk.old }
{
    steps::peek::<V, Brand>(&domain.table.shared, &mut desk.seat, block, word)
}

/// Whether the object in the block gives pointers to itself ([util.smartptr.enab]). The desk has a handle of it, or it
/// ends in its hands.
pub fn is_enabled<V: Drop>(domain: &Domain<V>, desk: &mut Desk<V>, block: Block) -> bool
    requires domain { Belongs desk.old domain.now }
    requires near { IsNear desk.old block.0 }
    ensures block { IsBlock block }
    ensures flag { result ≡ (object_in desk.old block.0).enabled }
    ensures same { desk.new ≡ desk.old }
{
    peek(domain, desk, block, 0) % 2 == ENABLED
}

/// Whether the pointer that the object in the block owns is null (own). The desk has a handle of it, or it ends in its
/// hands.
pub fn is_null<V: Drop>(domain: &Domain<V>, desk: &mut Desk<V>, block: Block) -> bool
    requires domain { Belongs desk.old domain.now }
    requires near { IsNear desk.old block.0 }
    ensures flag { result ≡ (object_in desk.old block.0).null }
    ensures same { desk.new ≡ desk.old }
{
    peek(domain, desk, block, 0) % 4 >= NULL
}

/// The fields of the object in the block (own). The desk has a handle of it, or it ends in its hands.
pub fn fields<V: Drop>(domain: &Domain<V>, desk: &mut Desk<V>, block: Block) -> [u64; 4]
    requires domain { Belongs desk.old domain.now }
    requires near { IsNear desk.old block.0 }
    ensures fields { (k : ℕ) → k < 4
        → slice_index result k ≡ slice_index (object_in desk.old block.0).fields k }
    ensures same { desk.new ≡ desk.old }
{
    [
        peek(domain, desk, block, 1),
        peek(domain, desk, block, 2),
        peek(domain, desk, block, 3),
        peek(domain, desk, block, 4),
    ]
}
