//! How a domain is opened.
ghost use Rattle.std.specs.Prelude.{IfSome};
ghost use Rattle.pointers.specs.Programs.{IsOpened};

use control_block::desk::Desk;
use control_block::domain::{Domain, open};
use control_word::Shape;
use std::alloc::Global;

/// A new domain, with its first desk, which has put all vacant blocks on the shelf. None where memory is refused, or
/// the shape is outside the limits.
pub(crate) fn open_domain<V: Drop>(alloc: Global, shape: Shape) -> Option<(Domain<V>, Desk<V>)>
    ensures { IfSome result (λ r. IsOpened shape r.0 r.1) }
{
    match open::<V>(alloc, shape) {
        Ok(opened) => {
            let (domain, mut desk) = opened;
            desk.shelve(&domain, u32::MAX);
            Some((domain, desk))
        }
        Err(_) => None,
    }
}
