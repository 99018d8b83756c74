//! What each step on the book tells.
ghost use Rattle.ownership_ledger.specs.Rule.{joined_seat};
ghost use Rattle.ownership_ledger.specs.Steps.{added_made, added_ended, read_made, read_ended};
ghost use Rattle.ownership_ledger.specs.Steps.{without_one, one_apart, seats_together};

use crate::share::View;
use atomic_table::{Join, Play, Split};

pub(crate) struct AddsMade;

impl Play<(), View> for AddsMade {
    ghost then = { added_made };
}

pub(crate) struct AddsEnded;

impl Play<(), View> for AddsEnded {
    ghost then = { added_ended };
}

pub(crate) struct ReadsMade;

impl Play<(), View> for ReadsMade {
    ghost then = { read_made };
}

pub(crate) struct ReadsEnded;

impl Play<(), View> for ReadsEnded {
    ghost then = { read_ended };
}

/// One share is cut off.
pub(crate) struct Cut;

impl Split<View> for Cut {
    ghost left = { without_one };

    ghost right = { one_apart };
}

/// Two seats become one that stands for the shares of both.
pub(crate) struct Glue;

impl Join<View> for Glue {
    ghost both = { seats_together };

    ghost spent = { joined_seat };
}
