//! Weak pointers as words, for the crates of calls.
ghost use Rattle.std.specs.Prelude.{◌≡◌};
ghost use Rattle.control_word.specs.declared.model.handle.Kind.TheVariants as kind;
ghost use Rattle.control_block.specs.Handles.{IsProper, word_of};

use crate::handles::Weak;
use control_word::{Block, HandleWord, Place};

impl Weak {
    /// The weak handle with this word (own). For the crates of calls: only a call that got it on a desk makes one. An
    /// empty one points nowhere.
    #[inline(always)]
    pub fn of_word(word: HandleWord) -> Self
        requires { IsProper kind.Weak word.block word.place }
        ensures { (result.block ≡ word.block) × (result.place ≡ word.place) }
    {
        Self { word }
    }

    /// Its word (own). For the crates of calls: only a call that spends it takes it apart.
    #[inline(always)]
    pub fn into_word(self) -> HandleWord
        ensures { result ≡ word_of self }
    {
        let Self { word } = self;
        word
    }

    /// Its word (own).
    #[inline(always)]
    pub fn word(&self) -> HandleWord
        ensures { result ≡ word_of self.now }
    {
        self.word
    }

    /// The block of what it is on (own).
    #[inline(always)]
    pub fn block(&self) -> Option<Block>
        ensures { result ≡ self.now.block }
    {
        self.word.block()
    }

    /// Where a lock of it would point (own).
    #[inline(always)]
    pub fn place(&self) -> Option<Place>
        ensures { result ≡ self.now.place }
    {
        self.word.place()
    }
}
