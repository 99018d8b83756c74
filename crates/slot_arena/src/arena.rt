//! Where cells come from.
ghost use Rattle.std.specs.Prelude.{◌≡◌, IfErr, IfOk, None, replicate};

use crate::cell::RawCell;
use crate::value_cell::ValueCell;
use control_word::Refusal;
use std::alloc::Global;

/// The name of the call that makes cells; no value of it is made.
pub enum Arena {}

impl Arena {
    /// So many cells without a value (own). It is refused `Memory` where a growth was really
    /// refused; the cells that it got go back then.
    pub fn new<V: Drop>(alloc: Global, count: u32) -> Result<Vec<ValueCell<V>>, Refusal>
        ensures count { IfOk result (λ cells. cells.items ≡ replicate count None) }
        ensures refused { IfErr result (λ why. why ≡ Refusal.Memory) }
    {
        let mut cells = Vec::with_capacity(alloc, count as usize)?;
        for _ in 0..count {
            let Ok(cell) = RawCell::allocate(alloc) else {
                return Err(Refusal::Memory);
            };
            cells.push_reserved(ValueCell {
                cell,
                filled: false,
            });
        }
        Ok(cells)
    }
}
