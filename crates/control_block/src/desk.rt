//! A desk: one thread's part of a domain.
ghost use Rattle.std.specs.Prelude.{◌≡◌, ◌↔◌, ℕ, length, IsTrue};
ghost use Rattle.control_block.specs.Desks.{Belongs, allowance_of, held_of, stock_of};
ghost use Rattle.control_block.specs.Standing.{Standing};

use crate::domain::Domain;
use crate::table::Seat;
use control_word::Block;
use std::alloc::Global;
use std::marker::Model;

/// One thread's part of a domain: a store of vacant blocks, and an allowance of handles. It must be joined or closed.
pub struct Desk<V: Drop> {
    pub(crate) seat: Seat<V>,
    pub(crate) allowance: u32,
    /// Handles that were handed out, empty ones too.
    pub(crate) held: u32,
    /// Objects that end in its hands.
    pub(crate) endings: u32,
    /// It has room for all blocks.
    pub(crate) store: Vec<Block, Global>,
    /// The word of the shelf where it found a block last.
    pub(crate) shelf_word: u32,
}

impl<V: Drop> Model for Desk<V> {
    ghost use Rattle.control_block.specs.Desks.{DeskNow};
    ghost use Rattle.control_block.specs.Inside.{desk_now, IsDesk};

    ghost Value = { DeskNow V };

    ghost view = { desk_now };

    ghost invariant = { IsDesk };
}

impl<V: Drop> Desk<V> {
    /// How many vacant blocks it has (own).
    pub fn stock(&self) -> u32
        ensures { result ≡ length (stock_of self.now) }
    {
        self.store.len() as u32
    }

    /// How many handles it may hold (own).
    pub fn allowance(&self) -> u32
        ensures { result ≡ allowance_of self.now }
    {
        self.allowance
    }

    /// How many handles it holds, empty ones too, and one more while an object ends in its hands (own): what a member
    /// held passes through them.
    pub fn held(&self) -> u32
        ensures { result ≡ held_of self.now }
    {
        self.held + self.endings.min(1)
    }

    /// Whether it is at its allowance (own): then no call gives it a handle.
    pub fn is_full(&self) -> bool
        ensures { IsTrue result ↔ (held_of self.now ≡ allowance_of self.now) }
    {
        self.held() == self.allowance
    }

    /// What is true of every desk (own): for the proof of a caller that needs it.
    pub fn assert_invariant(&self)
        ensures { Standing self.now }
    {
        let _held = self.held;
    }

    /// Gives the desk up (own): its part of the domain isn't used again, and no desk is sole after that.
    pub fn give_up(self) {
        let Self {
            seat,
            allowance: _,
            held: _,
            endings: _,
            store,
            shelf_word: _,
        } = self;
        drop(seat);
        drop(store);
    }

    /// Whether it has the whole allowance: then every other desk is joined, and it has seen all (own).
    pub fn is_sole(&self, domain: &Domain<V>) -> bool
        requires { Belongs self.now domain.now }
        ensures { IsTrue result ↔ (allowance_of self.now ≡ domain.now.shape.allowance) }
    {
        domain.shape.allowance == self.allowance
    }
}
