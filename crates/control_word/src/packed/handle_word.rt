//! A handle as the word of a cell that holds it, with no fund taken: nothing is packed where it goes into a cell, and
//! nothing unpacked where it comes out.
ghost use Rattle.std.specs.Prelude.{◌≡◌, ◌↔◌, IfSome, IsTrue, None};
ghost use Rattle.control_word.specs.Packing.{IsBlock, IsPlace};
ghost use Rattle.control_word.specs.HandleWords.{EqualWordsAreEquivalent, EquivalentHaveOneWord, cell_of_handle};
ghost use Rattle.control_word.specs.HandleWords.{handle_bits, handle_of_cell};

use crate::packed::cell::{CellWord, pack};
use crate::packed::packed_cell::PackedCell;
use crate::place::{Block, Place};
use std::marker::Model;

/// A handle's word (own), of 8 bytes, seen as the block of what it is on and where it points. Two are equal just where
/// they are on one block, or both on none, and point at one place: handles that are equivalent
/// ([util.smartptr.atomic.shared]), where no other object came into the block between them.
#[derive(Clone, Copy, PartialEq, Eq, Debug, Drop)]
pub struct HandleWord {
    cell: PackedCell,
}

impl Model for HandleWord {
    ghost use Rattle.std.specs.Prelude.{◌≡◌};
    ghost use Rattle.std.proofs.Common.{sym};
    ghost use Rattle.control_word.specs.HandleWords.{HandleNow, cell_of_handle, handle_of_cell};

    ghost Value = { HandleNow };

    ghost view = { λ s. handle_of_cell s.cell };

    ghost invariant = { λ s. s.cell.taken ≡ 0 };

    ghost inverse = { λ h. record { cell = cell_of_handle h } };

    ghost inverse_ok = { λ s h i. record { cell = record s.cell { taken = sym h i } } };
}

impl HandleWord {
    /// The word of a handle (own). Condition: blocks and fields are those that a domain may have.
    #[inline(always)]
    pub fn of(block: Option<Block>, place: Option<Place>) -> Self
        requires block { IfSome block IsBlock }
        requires place { IfSome place IsPlace }
        ensures { result ≡ record { block = block; place = place } }
    {
        let word = pack(CellWord {
            owned: block,
            place,
            taken: 0,
        });
        HandleWord {
            cell: PackedCell::of_bits(word),
        }
    }

    /// The handle that a cell holds of whose funds none was taken (own).
    #[inline(always)]
    pub(crate) fn of_cell(cell: PackedCell) -> Self
        requires { cell.taken ≡ 0 }
        ensures { result ≡ handle_of_cell cell }
    {
        HandleWord { cell }
    }

    /// The word of a cell that holds it, with no fund taken (own).
    #[inline(always)]
    pub fn cell(self) -> PackedCell
        ensures { result ≡ cell_of_handle self }
    {
        self.cell
    }

    /// That word itself (own).
    #[inline(always)]
    pub fn bits(self) -> u64
        ensures { result ≡ handle_bits self }
    {
        self.cell.bits()
    }

    /// The block of the object that it is on (own).
    #[inline(always)]
    pub fn block(self) -> Option<Block>
        ensures block { result ≡ self.block }
        ensures valid { IfSome result IsBlock }
    {
        self.cell.owned()
    }

    /// Where it points (own).
    #[inline(always)]
    pub fn place(self) -> Option<Place>
        ensures place { result ≡ self.place }
        ensures valid { IfSome result IsPlace }
    {
        self.cell.place()
    }

    /// Whether it is on nothing and points nowhere (own).
    #[inline(always)]
    pub fn is_empty(self) -> bool
        ensures { IsTrue result ↔ ((self.block ≡ None) × (self.place ≡ None)) }
    {
        self.cell.bits() == 0
    }

    /// A handle on the same object that points elsewhere, or nowhere (own).
    #[inline(always)]
    pub fn with_place(self, place: Option<Place>) -> Self
        requires { IfSome place IsPlace }
        ensures { result ≡ record self { place = place } }
    {
        HandleWord::of(self.block(), place)
    }
}

/// Of handles (own): two of one word are equivalent ([util.smartptr.atomic.shared]), and two that are equivalent have
/// one word, where no two blocks have one object.
pub fn equal_words_are_equivalent()
    ensures equal { EqualWordsAreEquivalent }
    ensures equivalent { EquivalentHaveOneWord }
{}
