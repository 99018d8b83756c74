//! A cell's word as a value: a part of it is looked at where it is asked for, and the whole goes from cell to cell.
ghost use Rattle.std.specs.Prelude.{◌≡◌, ◌↔◌, IfSome, IsTrue, None};
ghost use Rattle.control_word.specs.Packing.{IsBlock, IsCellWord, IsPackedCell, IsPlace, cell_bits};
ghost use Rattle.control_word.specs.HandleWords.{handle_of_cell};
ghost use Rattle.control_word.specs.declared.packed.cell.CellWord.{CellWord};

use crate::packed::cell::{taken_number, unpack, with_none_taken};
use crate::packed::handle_word::HandleWord;
use crate::place::{Block, Place};
use std::marker::Model;

/// A cell's word, seen as what it says (own). Two are equal just where they say the same.
#[derive(Clone, Copy, PartialEq, Eq, Debug, Drop)]
pub struct PackedCell {
    bits: u64,
}

impl Model for PackedCell {
    ghost use Rattle.control_word.specs.declared.packed.cell.CellWord.{CellWord};
    ghost use Rattle.control_word.specs.Packing.{IsWellPacked, cell_bits, cell_in};

    ghost Value = { CellWord };

    ghost view = { λ s. cell_in s.bits };

    ghost invariant = { λ s. IsWellPacked s.bits };

    ghost inverse = { λ x. record { bits = cell_bits x } };

    ghost inverse_ok = { λ s h i. record { bits = h.bits i } };
}

impl PackedCell {
    /// What a cell's word says (own): the very cell that was packed. Condition: it is the word of some cell, as every
    /// word of a cell in a table is.
    #[inline(always)]
    pub fn of_bits(word: u64) -> Self
        requires { IsPackedCell word }
        ensures valid { IsCellWord result }
        ensures bits { cell_bits result ≡ word }
        ensures packed { (cell : CellWord) → IsCellWord cell → word ≡ cell_bits cell → result ≡ cell }
    {
        PackedCell { bits: word }
    }

    /// The word (own).
    #[inline(always)]
    pub fn bits(self) -> u64
        ensures { result ≡ cell_bits self }
    {
        self.bits
    }

    /// Block of the object that the held handle owns (own).
    #[inline(always)]
    pub fn owned(self) -> Option<Block>
        ensures owned { result ≡ self.owned }
        ensures valid { IfSome result IsBlock }
    {
        unpack(self.bits).owned
    }

    /// The pointer that the held handle stores (own).
    #[inline(always)]
    pub fn place(self) -> Option<Place>
        ensures place { result ≡ self.place }
        ensures valid { IfSome result IsPlace }
    {
        unpack(self.bits).place
    }

    /// How many of its funds were taken (own).
    #[inline(always)]
    pub fn taken(self) -> u32
        ensures { result ≡ self.taken }
    {
        taken_number(self.bits)
    }

    /// A cell that holds nothing (own): its word is 0.
    #[inline(always)]
    pub fn empty() -> Self
        ensures { result ≡ record { owned = None; place = None; taken = 0 } }
    {
        PackedCell { bits: 0 }
    }

    /// Whether the cell holds this handle (own): by its word but for the funds taken.
    #[inline(always)]
    pub fn holds(self, handle: HandleWord) -> bool
        ensures { IsTrue result ↔ (handle_of_cell self ≡ handle) }
    {
        self.handle() == handle
    }

    /// The handle that the cell holds (own).
    #[inline(always)]
    pub fn handle(self) -> HandleWord
        ensures { result ≡ handle_of_cell self }
    {
        let cell = PackedCell {
            bits: with_none_taken(self.bits),
        };
        HandleWord::of_cell(cell)
    }
}
