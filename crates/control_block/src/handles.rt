//! Handles as values. Where they lie a desk's history knows them by their blocks: in a desk's bag what is held in a
//! block is on the object last made in it.
ghost use Rattle.control_word.specs.declared.model.handle.Kind.TheVariants.{Owner};
ghost use Rattle.control_word.specs.declared.model.handle.Kind.TheVariants as kind;
ghost use Rattle.control_block.specs.Handles.{IsProper, IsProper-known};

mod shared_word;
mod weak_word;

use control_word::HandleWord;
use std::marker::Model;

/// A shared pointer: what it owns, by its block, and its place ([util.smartptr.shared]), in the word that a cell has
/// while it holds it. It must be spent by a call on its desk.
pub struct Shared {
    word: HandleWord,
    /// An empty one may point at a place all the same: one of a block's fields.
    ghost proper: { IsProper Owner word.block word.place } by { IsProper-known Owner word.block word.place },
}

impl Model for Shared {
    ghost use Rattle.control_word.specs.declared.model.handle.Kind.TheVariants.{Owner};
    ghost use Rattle.std.specs.Coded.{codes};
    ghost use Rattle.control_block.specs.Handles.{IsProper-known, Pointer};

    ghost Value = { Pointer Owner };

    ghost coded = { Prim.hlevel (codes, IsProper-known) };

    ghost view = { λ s. record { block = s.word.block; place = s.word.place; proper = s.proper } };
}

/// A weak pointer ([util.smartptr.weak]), in the same word. It must be spent by a call on its desk.
pub struct Weak {
    word: HandleWord,
    /// An empty one points nowhere.
    ghost proper: { IsProper kind.Weak word.block word.place } by { IsProper-known kind.Weak word.block word.place },
}

impl Model for Weak {
    ghost use Rattle.control_word.specs.declared.model.handle.Kind.TheVariants as kind;
    ghost use Rattle.std.specs.Coded.{codes};
    ghost use Rattle.control_block.specs.Handles.{IsProper-known, Pointer};

    ghost Value = { Pointer kind.Weak };

    ghost coded = { Prim.hlevel (codes, IsProper-known) };

    ghost view = { λ s. record { block = s.word.block; place = s.word.place; proper = s.proper } };
}

/// An owner or a weak handle.
pub enum Held {
    Owner(Shared),
    Weak(Weak),
}
