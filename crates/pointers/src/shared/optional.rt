//! Pointers that may be empty, as each of C++'s may.

use crate::domain::Domain;
use crate::fault::Fault;
use crate::shared::Shared;
use crate::weak::Weak;

/// An `Option` of a pointer, which C++ has in each of its pointers: `None` is `nullptr`.
pub trait OptionalPointer: Sized {
    ghost use Rattle.std.specs.Prelude.{IfErr, IfOk};
    ghost use Rattle.pointers.specs.declared.fault.Fault.{Fault};

    /// What is known of its copy.
    ghost copied: { Self → Self → Type 0 };

    /// Why there is none.
    ghost refused: { Self → Fault → Type 0 };

    /// One pointer more to what it points at, in C++ a copy: of `None` it is `None`. It is refused as `share` of the
    /// pointer is.
    fn share(&self) -> Result<Self, Fault>
        ensures copied { IfOk result (copied self.now) }
        ensures refused { IfErr result (refused self.now) };
}

impl<'t, D: Domain> OptionalPointer for Option<Shared<'t, D>> {
    ghost use Rattle.pointers.specs.declared.fault.call.Call.TheVariants.{Share};
    ghost use Rattle.std.specs.Prelude.{IsSome};
    ghost use Rattle.pointers.specs.Faults.{WhyNoMore};
    ghost use Rattle.pointers.specs.Known.{IsCopyOf, pointed};

    ghost copied = { λ a b. IsCopyOf D.opened pointed a b };

    ghost refused = { λ a why. IsSome a × WhyNoMore D.opened a Share why };

    fn share(&self) -> Result<Self, Fault> {
        match self {
            Some(owner) => Ok(Some(owner.share()?)),
            None => Ok(None),
        }
    }
}

impl<'t, D: Domain> OptionalPointer for Option<Weak<'t, D>> {
    ghost use Rattle.pointers.specs.declared.fault.call.Call.TheVariants.{Share};
    ghost use Rattle.std.specs.Prelude.{IsSome};
    ghost use Rattle.pointers.specs.Faults.{WhyNoMore};
    ghost use Rattle.pointers.specs.Known.{IsCopyOf, owned, pointed};
    ghost use Rattle.shared_handle.specs.Calls.{weak_place};

    ghost copied = { λ a b. IsCopyOf D.opened (λ c. weak_place (owned c) (pointed c)) a b };

    ghost refused = { λ a why. IsSome a × WhyNoMore D.opened a Share why };

    fn share(&self) -> Result<Self, Fault> {
        match self {
            Some(weak) => Ok(Some(weak.share()?)),
            None => Ok(None),
        }
    }
}
