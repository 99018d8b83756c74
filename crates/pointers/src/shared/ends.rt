//! An owner's end that hands out the value.
ghost use Rattle.std.specs.Prelude.{◌≡◌, IfErr, IfOk};
ghost use Rattle.pointers.specs.Ends.{EndsOwner};
ghost use Rattle.pointers.specs.Known.{Since, owned, pointed};

use crate::domain::Domain;
use crate::fault::Fault;
use crate::fault::call::Call;
use crate::shared::Shared;

impl<'t, D: Domain> Shared<'t, D> {
    /// The owner lets go, and where it was its object's last, the object's value comes out, in Rust `Arc::into_inner`
    /// ([util.smartptr.shared.dest]). `None` where the object has another owner. Within a visit `Busy`: then the owner
    /// lets go when that is done, as at a drop, and the value ends there.
    pub fn end(self) -> Result<Option<D::Value>, Fault>
        ensures ended { IfOk result (λ value. Since D.opened self.entry
            (λ d e. EndsOwner d (owned self.entry) (pointed self.entry) value e)) }
        ensures fault { IfErr result (λ why. why ≡ Fault.Busy Call.End) }
    {
        let desk = self.desk;
        let mut context = desk.open(Call::End)?;
        let value = context.end(desk.domain, self.into_claim());
        drop(context);
        if value.is_some() {
            desk.end_some(); // what the object's members alone owned
        }
        Ok(value)
    }
}
