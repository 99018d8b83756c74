//! What is so of every table.
ghost use Rattle.control_block.specs.Desks.{Belongs};
ghost use Rattle.control_block.specs.Standing.{Standing};
ghost use Rattle.shared_handle.specs.Piles.{AllEnd};
ghost use Rattle.script_runner.specs.Tables.{FitsSlots};

use crate::table::{Home, WorkerTable};

impl<'d, V: Drop, H: Home> WorkerTable<'d, V, H> {
    /// What is so of every table, which a proof may need (own): its desk is of the domain that its type names, and its
    /// history is legal and has just the handles in the slots; and what is left to end ends in the desk's hands.
    pub(crate) fn assert_invariant(&self)
        ensures here { Belongs self.now.desk H.domain }
        ensures stands { Standing self.now.desk }
        ensures fits { FitsSlots self.now.desk self.now.slots }
        ensures ends { AllEnd self.now.desk self.now.endings }
    {
        self.desk.assert_invariant();
    }
}
