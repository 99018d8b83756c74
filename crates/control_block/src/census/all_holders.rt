//! Who holds the objects that are left, of all blocks at once.
ghost use Rattle.std.specs.Prelude.{◌≡◌, ◌-◌, ◌++◌, [], ◌∷◌, IfErr, IfOk, OnOk, length};
ghost use Rattle.control_word.specs.declared.model.handle.Kind.TheVariants.{Owner, Weak};
ghost use Rattle.control_block.specs.AllHolders.{Notes, TellsEach};
ghost use Rattle.control_block.specs.Census.{HasBlock};
ghost use Rattle.control_block.specs.Holders.{IsCellOf, block_holders, free_holders, frees_in, holders_of};
ghost use Rattle.control_block.specs.Holders.{if_holds, many_of, member_holders};

use crate::cell_calls::CellAt;
use crate::census::Census;
use crate::census::holders::Holders;
use control_word::model::handle::Kind;
use control_word::packed::cell::owned_number;
use control_word::packed::layout::site_word;
use control_word::{Block, Refusal};
use std::alloc::{AllocError, Global};

impl Holders {
    /// One cell more holds the object, so that one handle fewer is in no cell.
    fn add(&mut self, cell: CellAt) -> Result<(), AllocError>
        ensures cells { OnOk result (self.new.cells.items ≡ self.old.cells.items ++ cell ∷ []) }
        ensures owners { OnOk result (self.new.forgotten.owners
            ≡ self.old.forgotten.owners - many_of Owner (cell ∷ [])) }
        ensures weaks { OnOk result (self.new.forgotten.weaks
            ≡ self.old.forgotten.weaks - many_of Weak (cell ∷ [])) }
    {
        self.cells.push(cell)?;
        match cell.kind {
            Kind::Owner => self.forgotten.owners = self.forgotten.owners.saturating_sub(1),
            Kind::Weak => self.forgotten.weaks = self.forgotten.weaks.saturating_sub(1),
        }
        Ok(())
    }
}

impl<V: Drop> Census<V> {
    /// Who holds the object in each block, from block 1 on (own): of each what `holders` tells of it. It looks at each
    /// cell once, where `holders` looks at all of them for one block. It is refused `Memory` only where a growth was
    /// really refused.
    pub fn all_holders(&self, alloc: Global) -> Result<Vec<Holders>, Refusal>
        ensures each { IfOk result (λ all. TellsEach self.now (holders_of self.now) all.items) }
        ensures refused { IfErr result (λ why. why ≡ Refusal.Memory) }
    {
        match self.told_holders(alloc) {
            Ok(all) => Ok(all),
            Err(_) => Err(Refusal::Memory),
        }
    }

    /// The same, refused as the growth was.
    fn told_holders(&self, alloc: Global) -> Result<Vec<Holders>, AllocError>
        ensures { IfOk result (λ all. TellsEach self.now (holders_of self.now) all.items) }
    {
        let mut all = self.without_cells(alloc)?;
        self.note_free(&mut all)?;
        self.note_all_members(&mut all)?;
        Ok(all)
    }

    /// Of each block that all of its handles are in no cell.
    fn without_cells(&self, alloc: Global) -> Result<Vec<Holders>, AllocError>
        ensures { IfOk result (λ all. TellsEach self.now (λ _. []) all.items) }
    {
        let mut all = Vec::with_capacity(alloc, self.shape.blocks as usize)?;
        for before in 0..self.shape.blocks {
            let forgotten = self.counts_in(Block::numbered(before + 1));
            let cells = Vec::new(alloc);
            all.push_reserved(Holders { cells, forgotten });
        }
        Ok(all)
    }

    /// Notes a cell with the block whose object it has a handle on, if there is one.
    fn note(&self, cell: CellAt, all: &mut Vec<Holders>) -> Result<(), AllocError>
        requires cell { IsCellOf self.now cell.site }
        requires each { length all.old.items ≡ self.now.blocks }
        ensures many { OnOk result (length all.new.items ≡ self.now.blocks) }
        ensures told { OnOk result (Notes self.now (λ b. if_holds self.now b cell)
            all.old.items all.new.items) }
    {
        let word = self.closed.word(site_word(self.shape.blocks, cell.site));
        let owned = owned_number(word);
        if owned > 0 && owned <= u64::from(self.shape.blocks) {
            all[owned as usize - 1].add(cell)?;
        }
        Ok(())
    }

    /// Notes the free cells.
    fn note_free(&self, all: &mut Vec<Holders>) -> Result<(), AllocError>
        requires each { length all.old.items ≡ self.now.blocks }
        ensures many { OnOk result (length all.new.items ≡ self.now.blocks) }
        ensures told { OnOk result (Notes self.now (λ b. free_holders self.now b (frees_in self.now))
            all.old.items all.new.items) }
    {
        for number in 0..self.frees() {
            self.note(self.free(number), all)?;
        }
        Ok(())
    }

    /// Notes the members of the object in a block.
    fn note_members(&self, of: Block, all: &mut Vec<Holders>) -> Result<(), AllocError>
        requires of { HasBlock self.now of.0 }
        requires each { length all.old.items ≡ self.now.blocks }
        ensures many { OnOk result (length all.new.items ≡ self.now.blocks) }
        ensures told { OnOk result (Notes self.now (λ b. block_holders self.now b of.0)
            all.old.items all.new.items) }
    {
        for member in 0..self.shape.members() {
            self.note(self.member(of, member), all)?;
        }
        Ok(())
    }

    /// Notes the members of all objects.
    fn note_all_members(&self, all: &mut Vec<Holders>) -> Result<(), AllocError>
        requires each { length all.old.items ≡ self.now.blocks }
        ensures many { OnOk result (length all.new.items ≡ self.now.blocks) }
        ensures told { OnOk result (Notes self.now (λ b. member_holders self.now b self.now.blocks)
            all.old.items all.new.items) }
    {
        for before in 0..self.shape.blocks {
            self.note_members(Block::numbered(before + 1), all)?;
        }
        Ok(())
    }
}
