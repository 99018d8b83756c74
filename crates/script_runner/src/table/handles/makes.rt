//! New objects, of the table's own vacant blocks.
ghost use Rattle.std.specs.Prelude.{◌≡◌, ◌<◌, [], false, length, true};
ghost use Rattle.control_block.specs.Desks.{stock_of};
ghost use Rattle.script_runner.specs.SlotCalls.{IsBelow, MakesIntoSlot, MakesNull};

use crate::table::slots::assignments::assign;
use crate::table::{Home, WorkerTable};
use shared_handle::{Held, make, make_null};

impl<'d, V: Drop, H: Home> WorkerTable<'d, V, H> {
    /// A new object with four fields and an owned value; its owner is assigned to a slot
    /// ([util.smartptr.shared.create], [util.smartptr.shared.assign]). Where `enabled`, the object gives pointers to
    /// itself ([util.smartptr.enab]). It is false just where the table has no vacant block: then nothing changes. It
    /// never takes one from the shelf, so that a make is just one event.
    pub(crate) fn make(&mut self, to: usize, fields: [u64; 4], enabled: bool, value: V) -> bool
        requires to { to < length self.old.slots }
        requires below { IsBelow self.old.desk }
        ensures made { result ≡ true → MakesIntoSlot self.old to enabled fields value self.new }
        ensures none { result ≡ false → (stock_of self.old.desk ≡ []) × (self.new ≡ self.old) }
    {
        match make(self.domain, &mut self.desk, fields, enabled, value) {
            Ok(owner) => {
                assign(
                    self.domain,
                    &mut self.desk,
                    &mut self.slots,
                    &mut self.pile,
                    to,
                    Held::Owner(owner),
                );
                true
            }
            Err(_) => false,
        }
    }

    /// A new owner of the null pointer, with a deleter's value, is assigned to a slot ([util.smartptr.shared.const]).
    /// It is false as of `make`.
    pub(crate) fn make_null(&mut self, to: usize, value: V) -> bool
        requires to { to < length self.old.slots }
        requires below { IsBelow self.old.desk }
        ensures made { result ≡ true → MakesNull self.old to value self.new }
        ensures none { result ≡ false → (stock_of self.old.desk ≡ []) × (self.new ≡ self.old) }
    {
        match make_null(self.domain, &mut self.desk, value) {
            Ok(owner) => {
                assign(
                    self.domain,
                    &mut self.desk,
                    &mut self.slots,
                    &mut self.pile,
                    to,
                    Held::Owner(owner),
                );
                true
            }
            Err(_) => false,
        }
    }
}
