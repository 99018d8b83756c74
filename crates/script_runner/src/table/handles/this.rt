//! Pointers that an object gives to itself.
ghost use Rattle.std.specs.Prelude.{◌≡◌, ◌<◌, IfErr, OnOk, length};
ghost use Rattle.script_runner.specs.SlotCalls.{IsOwnerAt};
ghost use Rattle.script_runner.specs.This.{IsNoThis, SharesThis, SharesThisWeakly};

use crate::table::slots::assignments::assign;
use crate::table::slots::owner_at;
use crate::table::{Home, WorkerTable};
use control_word::Refusal;
use shared_handle::{Held, shared_from_this, weak_from_this};

impl<'d, V: Drop, H: Home> WorkerTable<'d, V, H> {
    /// `shared_from_this` ([util.smartptr.enab]): one owner more of the object, which points at its field 0, is
    /// assigned to a slot. It is refused `Null`, `Outside` or `NotEnabled`, as of a bare handle.
    pub(crate) fn shared_from_this(&mut self, of: usize, to: usize) -> Result<(), Refusal>
        requires of { IsOwnerAt self.old.slots of }
        requires to { to < length self.old.slots }
        ensures shared { OnOk result (SharesThis self.old of to self.new) }
        ensures refused { IfErr result (λ why. IsNoThis self.old of why × (self.new ≡ self.old)) }
    {
        match shared_from_this(self.domain, &mut self.desk, owner_at(&self.slots, of)) {
            Ok(this) => {
                assign(
                    self.domain,
                    &mut self.desk,
                    &mut self.slots,
                    &mut self.pile,
                    to,
                    Held::Owner(this),
                );
                Ok(())
            }
            Err(why) => Err(why),
        }
    }

    /// `weak_from_this` ([util.smartptr.enab]): the same with a weak handle.
    pub(crate) fn weak_from_this(&mut self, of: usize, to: usize) -> Result<(), Refusal>
        requires of { IsOwnerAt self.old.slots of }
        requires to { to < length self.old.slots }
        ensures shared { OnOk result (SharesThisWeakly self.old of to self.new) }
        ensures refused { IfErr result (λ why. IsNoThis self.old of why × (self.new ≡ self.old)) }
    {
        match weak_from_this(self.domain, &mut self.desk, owner_at(&self.slots, of)) {
            Ok(this) => {
                assign(
                    self.domain,
                    &mut self.desk,
                    &mut self.slots,
                    &mut self.pile,
                    to,
                    Held::Weak(this),
                );
                Ok(())
            }
            Err(why) => Err(why),
        }
    }
}
