//! Handles by what a cell sees of them.
ghost use Rattle.std.specs.Prelude.{◌≡◌};
ghost use Rattle.script_runner.specs.Parts.{IsContent};

use control_block::cell_calls::Content;
use control_block::handles::{Shared, Weak};
use control_word::model::handle::Kind;
use shared_handle::Held;

/// The handle goes into a cell: this is what the cell gets.
pub(crate) fn into_content(handle: Held) -> Content
    ensures { IsContent handle result }
{
    match handle {
        Held::Owner(owner) => Content {
            kind: Kind::Owner,
            word: owner.into_word(),
        },
        Held::Weak(weak) => Content {
            kind: Kind::Weak,
            word: weak.into_word(),
        },
    }
}

/// The handle that came out of a cell.
pub(crate) fn held_of(content: Content) -> Held
    ensures { IsContent result content }
{
    match content.kind {
        Kind::Owner => Held::Owner(Shared::of_word(content.word)),
        Kind::Weak => Held::Weak(Weak::of_word(content.word)),
    }
}

/// What a cell would see of the handle, which stays where it lies.
pub(crate) fn content_of(handle: &Held) -> Content
    ensures { IsContent handle.now result }
{
    match handle {
        Held::Owner(owner) => Content {
            kind: Kind::Owner,
            word: owner.word(),
        },
        Held::Weak(weak) => Content {
            kind: Kind::Weak,
            word: weak.word(),
        },
    }
}
