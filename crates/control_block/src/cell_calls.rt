//! Cells as the calls on them name them: where one is, and what goes in or comes out.
ghost use Rattle.std.specs.Coded.{Coded-set, coded_bool};
ghost use Rattle.std.specs.Prelude.{◌≡◌, ◌+◌, true};
ghost use Rattle.control_word.specs.Handles.{same_kind};
ghost use Rattle.control_block.specs.Handles.{IsProper, IsProper-known};

pub use crate::calls::cells::{exchange, holds, load, load_once};
use control_word::model::handle::Kind;
use control_word::{HandleWord, Site};

/// A cell, and the kind of its handles.
#[derive(Clone, Copy, Drop)]
pub struct CellAt {
    pub site: Site,
    pub kind: Kind,
}

/// What goes into a cell or comes out of it: a handle, by its kind and its word.
#[derive(Clone, Copy, Drop)]
pub struct Content {
    pub kind: Kind,
    pub word: HandleWord,
    /// An empty owner may point at a place all the same: one of a block's fields. An empty weak handle points nowhere.
    pub ghost proper: { IsProper kind word.block word.place } by { IsProper-known kind word.block word.place },
}

/// What a compare-and-swap is given: the handle that the cell is expected to hold, and the one that is to go in, both
/// of the cell's kind.
#[derive(Clone, Copy, Drop)]
pub struct Offer {
    pub expected: Content,
    pub new: Content,
    pub ghost alike: { same_kind expected.kind new.kind ≡ true } by { Coded-set coded_bool _ true },
}
