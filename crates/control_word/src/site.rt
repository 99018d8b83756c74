//! Where a cell is, as running code names it.

use crate::place::Block;

/// A cell: a free-standing one by its number among all free cells, those of owners first, or a member (0 first, 1 next,
/// 2 up, and further owners) of the object in a block.
#[derive(Clone, Copy, Drop)]
pub enum Site {
    Free { number: u32 },
    Member { block: Block, member: u8 },
}
