//! A value of proofs alone, and where it comes from.
ghost use Rattle.std.specs.Prelude.{◌≡◌};
ghost use base.Fml.{ftrue};
ghost use denote.Sharing.{said};

use std::marker::{Model, PhantomData};

/// A value that clauses see and no program has. It owns nothing, so that only a clause ties it to anything.
#[derive(Drop)]
pub struct Ghost<T> {
    pub(crate) marker: PhantomData<T>,
    pub ghost value: { T },
}

// A struct may have a ghost field that is no fact where it owns something beside its fields, were it nothing.
impl<T> Model for Ghost<T> {
    ghost also_owns = { λ _. ftrue };

    ghost also_shares = { λ _ _. said ftrue };
}

/// How a value of `X` tells a `T`.
pub trait Tells<X, T> {
    ghost told: { X → T };
}

/// How a value of `X` and one of `Y` tell a `T` together.
pub trait TellsPair<X, Y, T> {
    ghost told: { X → Y → T };
}

impl<T> Ghost<T> {
    /// What `x` tells as it is now. It isn't read.
    #[inline(always)]
    pub fn of<X, M: Tells<X, T>>(x: &X) -> Ghost<T>
        ensures { result.value ≡ M.told x.now }
    {
        let _ = x;
        Ghost {
            marker: PhantomData,
        }
    }

    /// What `x` and `y` tell together as they are now. Neither is read.
    #[inline(always)]
    pub fn of_pair<X, Y, M: TellsPair<X, Y, T>>(x: &X, y: &Y) -> Ghost<T>
        ensures { result.value ≡ M.told x.now y.now }
    {
        let _ = x;
        let _ = y;
        Ghost {
            marker: PhantomData,
        }
    }
}

unsafe impl<T> Send for Ghost<T> {}

unsafe impl<T> Sync for Ghost<T> {}
