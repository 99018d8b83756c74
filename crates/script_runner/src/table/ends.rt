//! Objects that are left to end, one step at a time.
ghost use Rattle.std.specs.Prelude.{◌≡◌, [], IfNone, IfSome};
ghost use Rattle.shared_handle.specs.Piles.{IsRound};
ghost use Rattle.script_runner.specs.Ends.{IsToEnd};

use crate::table::{Home, WorkerTable};
use shared_handle::Round;

/// What an object was made as: with these fields, or of an owned null pointer.
#[derive(Clone, Copy, PartialEq, Eq, Debug, Drop)]
pub(crate) enum Remains {
    Fields([u64; 4]),
    Null,
}

impl<'d, V: Drop, H: Home> WorkerTable<'d, V, H> {
    /// What the object was made as that was last left to end with this table (own). `None` just where nothing is left.
    pub(crate) fn remains(&mut self) -> Option<Remains>
        ensures none { IfNone result (self.old.endings ≡ []) }
        ensures told { IfSome result (IsToEnd self.old) }
        ensures same { self.new ≡ self.old }
    {
        let top = self.pile.top()?;
        if top.is_null(self.domain, &mut self.desk) {
            return Some(Remains::Null);
        }
        let fields = top.fields(self.domain, &mut self.desk);
        Some(Remains::Fields(fields))
    }

    /// One round of ends (own): of the object that was last left to end, the first member that isn't clear is emptied,
    /// and what ends for it is left to end above it; or, with all of them clear, the object ends, and its value comes
    /// out. `Settled` just where nothing is left.
    #[tactic(auto, using(shared_handle::proofs::Piles::bears_after))]
    pub(crate) fn round(&mut self) -> Round<V>
        ensures round { IsRound self.old.desk self.old.endings result self.new.desk self.new.endings }
        ensures slots { self.new.slots ≡ self.old.slots }
    {
        self.pile.round(self.domain, &mut self.desk)
    }
}
