//! Pointers that let go, and objects that end.
use crate::claim::shared_claim::SharedClaim;
use crate::claim::weak_claim::WeakClaim;
use crate::desk::blocks::ROUNDS;
use crate::desk::{Desk, Late};
use crate::domain::Domain;

impl<'d, D: Domain> Desk<'d, D> {
    /// An owner lets go.
    #[inline(always)]
    pub(crate) fn let_go(&self, owner: SharedClaim<D>) {
        match self.context.try_borrow_mut() {
            Ok(mut context) => {
                let Some((value, is_more)) = context.leave_to_end(self.domain, owner) else {
                    return;
                };
                drop(context);
                drop(value);
                if is_more {
                    self.end_some();
                }
            }
            Err(_) => self.put_off(Late::Shared(owner)),
        }
    }

    /// A weak pointer lets go. Its object's block may become vacant by it.
    #[inline(always)]
    pub(crate) fn let_go_weak(&self, weak: WeakClaim<D>) {
        match self.context.try_borrow_mut() {
            Ok(mut context) => {
                context.leave_weak(self.domain, weak);
                context.spare(self.domain);
            }
            Err(_) => self.put_off(Late::Weak(weak)),
        }
    }

    /// The pointers that were dropped within a visit let go.
    #[inline(always)]
    pub(crate) fn catch_up(&self) {
        for _ in 0..u32::MAX {
            match self.take_late() {
                None => break,
                Some(Late::Shared(owner)) => self.let_go(owner),
                Some(Late::Weak(weak)) => self.let_go_weak(weak),
            }
        }
    }

    /// A pointer that was dropped within a visit, if there is one.
    #[inline(always)]
    fn take_late(&self) -> Option<Late<D>> {
        match self.late.try_borrow_mut() {
            Ok(mut late) => late.pop(),
            Err(_) => None,
        }
    }

    /// What is left to end does so, in so many rounds at most: what other threads lengthened meanwhile may be left
    /// then, and ends with a later drop or by `settle`.
    #[cold]
    #[inline(never)]
    pub(crate) fn end_some(&self) {
        self.end_within();
        self.spare();
    }

    #[inline(always)]
    fn end_within(&self) {
        let mut rounds = ROUNDS;
        while rounds > 0 {
            let ended = match self.context.try_borrow_mut() {
                Ok(mut context) => context.next_value(self.domain, &mut rounds),
                Err(_) => return,
            };
            match ended {
                Some(value) => drop(value),
                None => return,
            }
        }
    }
}
