//! Vacant blocks of a desk, and what is left to end with it.
ghost use Rattle.std.specs.Prelude.{◌≡◌, IfErr, IfOk, OnOk};
ghost use Rattle.pointers.specs.Blocks.{Fills, Settles, ShelvesAll, SinceOpened};

use crate::desk::Desk;
use crate::domain::Domain;
use crate::fault::Fault;
use crate::fault::call::Call;
use control_word::shape::MOST_BLOCKS;
use std::sync::Wait;

/// How many rounds of ends one borrow of the desk makes at most: four for each object that a domain can have.
pub(super) const ROUNDS: u32 = 4 * MOST_BLOCKS;

impl<'d, D: Domain> Desk<'d, D> {
    /// Vacant blocks above the reserve go to the shelf.
    #[cold]
    #[inline(never)]
    pub(crate) fn spare(&self) {
        if let Ok(mut context) = self.context.try_borrow_mut() {
            context.spare(self.domain);
        }
    }

    /// What is left to end with this desk does so, in C++ the deleters' calls (waits). A pointer's drop has done it
    /// before, but for what other threads lengthened meanwhile.
    pub fn settle<R: Wait>(&self, rt: &R) -> Result<(), Fault>
        ensures settled { OnOk result (SinceOpened D.opened Settles) }
        ensures fault { IfErr result (λ why. why ≡ Fault.Busy Call.Settle) }
    {
        self.settle_with(rt, |value| drop(value))
    }

    /// The same, and `take` gets each value as it comes out, while the desk is free.
    pub fn settle_with<R: Wait, F: FnMut(D::Value)>(&self, rt: &R, take: F) -> Result<(), Fault>
        requires { F.IsAlwaysCallable take }
        ensures settled { OnOk result (SinceOpened D.opened Settles) }
        ensures fault { IfErr result (λ why. why ≡ Fault.Busy Call.Settle) }
    {
        let mut take = take;
        for _ in rt.forever() {
            let mut rounds = ROUNDS;
            let ended = self
                .open(Call::Settle)?
                .next_value(self.domain, &mut rounds);
            match ended {
                Some(value) => take(value),
                None => {
                    if rounds > 0 {
                        self.spare();
                        return Ok(());
                    }
                }
            }
        }
        unreachable!()
    }

    /// All vacant blocks of the desk go to the domain's shelf, its reserve too (own): how many did. Other desks find
    /// them there when they have none.
    pub fn shelve(&self) -> Result<u32, Fault>
        ensures shelved { IfOk result (λ n. SinceOpened D.opened (ShelvesAll n)) }
        ensures fault { IfErr result (λ why. why ≡ Fault.Busy Call.Shelve) }
    {
        Ok(self.open(Call::Shelve)?.shelve_all(self.domain))
    }

    /// The desk fills its reserve of `RESERVE` blocks from the shelf (own): how many blocks came.
    pub fn unshelve(&self) -> Result<u32, Fault>
        ensures filled { IfOk result (λ n. SinceOpened D.opened (Fills n)) }
        ensures fault { IfErr result (λ why. why ≡ Fault.Busy Call.Unshelve) }
    {
        Ok(self.open(Call::Unshelve)?.fill(self.domain))
    }
}
