//! The fields of an object.

/// A field of an object, which has four.
#[derive(Clone, Copy, Debug, PartialEq, Eq)]
pub enum Field {
    Zero = 0,
    One = 1,
    Two = 2,
    Three = 3,
}

impl Field {
    ghost use Rattle.std.specs.Prelude.{◌≡◌};
    ghost use Rattle.step_table.specs.AtomicSteps.{field_number};

    /// The field's number (own), 0 to 3.
    pub fn number(self) -> u8
        ensures { result ≡ field_number self }
    {
        self as u8
    }
}
