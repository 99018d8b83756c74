//! Which acts of a run are drawn.
ghost use Rattle.std.specs.Prelude.{◌≡◌};
ghost use Rattle.script_picture.specs.Parts.{is_in, shown_part};

/// The most acts that one picture shows (own).
pub const MOST_ACTS: u32 = 2_000;

/// Acts of a run by their numbers, from 1: those from the first to the last.
#[derive(Clone, Copy)]
pub struct Part {
    pub first: u32,
    pub last: u32,
}

impl Part {
    /// All acts.
    pub fn whole() -> Part
        ensures { result ≡ record { first = 1; last = u32.MAX } }
    {
        Part {
            first: 1,
            last: u32::MAX,
        }
    }

    /// As many of them, from the first on, as one picture shows.
    pub(crate) fn shown(self) -> Part
        ensures { result ≡ shown_part self }
    {
        let most = self.first.saturating_add(MOST_ACTS - 1);
        Part {
            first: self.first,
            last: self.last.min(most),
        }
    }

    /// Whether an act is one of them.
    pub(crate) fn has(self, number: u64) -> bool
        ensures { result ≡ is_in self number }
    {
        u64::from(self.first) <= number && number <= u64::from(self.last)
    }
}
