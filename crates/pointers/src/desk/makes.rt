//! Owners of new objects.
ghost use Rattle.std.specs.Prelude.{◌≡◌, IfErr, IfOk, false, true};
ghost use Rattle.pointers.specs.Objects.{Makes, MakesNull, MakesPlain};
ghost use Rattle.pointers.specs.Faults.{WhyNotMade};

use crate::desk::Desk;
use crate::domain::Domain;
use crate::fault::call::Call;
use crate::fault::{Fault, Refused};
use crate::shared::Shared;

impl<'d, D: Domain> Desk<'d, D> {
    /// A new object with four fields and a value, in C++ `make_shared` ([util.smartptr.shared.create]). A refused make
    /// hands the value back: `Crowded(Make)` where the desk has all the pointers it may have, and `Refused(Make, Full)`
    /// where no vacant block is left but in other desks' reserves, of `RESERVE` each at most.
    #[inline(always)]
    pub fn make(
        &self,
        fields: [u64; 4],
        value: D::Value,
    ) -> Result<Shared<'_, D>, Refused<D::Value>>
        ensures made { IfOk result (Makes D.opened false fields value) }
        ensures fault { IfErr result (λ r. WhyNotMade r.why) }
        ensures back { IfErr result (λ r. r.back ≡ value) }
    {
        self.make_as(fields, false, value)
    }

    /// The same with four fields of 0, in Rust `Arc::new`.
    #[inline(always)]
    pub fn new(&self, value: D::Value) -> Result<Shared<'_, D>, Refused<D::Value>>
        ensures made { IfOk result (MakesPlain D.opened value) }
        ensures fault { IfErr result (λ r. WhyNotMade r.why) }
        ensures back { IfErr result (λ r. r.back ≡ value) }
    {
        self.make_as([0; 4], false, value)
    }

    /// The same as `make` of an object that gives pointers to itself, in C++ one whose class derives from
    /// `enable_shared_from_this` ([util.smartptr.enab]).
    #[inline(always)]
    pub fn make_enabled(
        &self,
        fields: [u64; 4],
        value: D::Value,
    ) -> Result<Shared<'_, D>, Refused<D::Value>>
        ensures made { IfOk result (Makes D.opened true fields value) }
        ensures fault { IfErr result (λ r. WhyNotMade r.why) }
        ensures back { IfErr result (λ r. r.back ≡ value) }
    {
        self.make_as(fields, true, value)
    }

    #[inline(always)]
    fn make_as(
        &self,
        fields: [u64; 4],
        enabled: bool,
        value: D::Value,
    ) -> Result<Shared<'_, D>, Refused<D::Value>>
        ensures made { IfOk result (Makes D.opened enabled fields value) }
        ensures fault { IfErr result (λ r. WhyNotMade r.why) }
        ensures back { IfErr result (λ r. r.back ≡ value) }
    {
        let mut context = match self.open(Call::Make) {
            Ok(context) => context,
            Err(why) => return Err(Refused { why, back: value }),
        };
        match context.make(self.domain, fields, enabled, value) {
            Ok(owner) => Ok(Shared { desk: self, owner }),
            Err(refused) => Err(Refused {
                why: Fault::of(Call::Make, refused.why),
                back: refused.back,
            }),
        }
    }

    /// An owner of a null pointer, with a value for its end, in C++ `shared_ptr(nullptr, d)`
    /// ([util.smartptr.shared.const]). Refused as `make` is.
    pub fn make_null(&self, value: D::Value) -> Result<Shared<'_, D>, Refused<D::Value>>
        ensures made { IfOk result (MakesNull D.opened value) }
        ensures fault { IfErr result (λ r. WhyNotMade r.why) }
        ensures back { IfErr result (λ r. r.back ≡ value) }
    {
        let mut context = match self.open(Call::Make) {
            Ok(context) => context,
            Err(why) => return Err(Refused { why, back: value }),
        };
        match context.make_null(self.domain, value) {
            Ok(owner) => Ok(Shared { desk: self, owner }),
            Err(refused) => Err(Refused {
                why: Fault::of(Call::Make, refused.why),
                back: refused.back,
            }),
        }
    }
}
