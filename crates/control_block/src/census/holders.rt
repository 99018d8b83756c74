//! Who holds the objects that are left.
ghost use Rattle.std.specs.Prelude.{◌≡◌, ◌+◌, ◌-◌, ◌<◌, ◌++◌, [], IfErr, IfOk, OnOk};
ghost use Rattle.control_word.specs.State.{kind_of_free};
ghost use Rattle.control_word.specs.declared.model.handle.Kind.TheVariants.{Owner, Weak};
ghost use Rattle.control_block.specs.Census.{HasBlock, owners_in, weaks_in};
ghost use Rattle.control_block.specs.Holders.{IsCellOf, block_holders, free_cell, free_holders, frees_in, holders_of};
ghost use Rattle.control_block.specs.Holders.{if_holds, member_cell};
ghost use Rattle.control_block.specs.Holders.{many_of, member_holders};

use crate::cell_calls::CellAt;
use crate::census::Census;
use control_word::model::handle::Kind;
use control_word::packed::cell::owned_number;
use control_word::packed::layout::site_word;
use control_word::{Block, Counts, Refusal, Site};
use std::alloc::{AllocError, Global};

/// Who holds an object: the cells with a handle on it, and how many more handles it has, which are in no cell.
#[derive(Drop)]
pub struct Holders {
    pub cells: Vec<CellAt>,
    pub forgotten: Counts,
}

/// How many of the cells are of this kind.
fn count_kind(cells: &[CellAt], kind: Kind) -> usize
    ensures { result ≡ many_of kind cells.now }
{
    let mut count = 0;
    for cell in cells {
        if cell.kind == kind {
            count += 1;
        }
    }
    count
}

impl<V: Drop> Census<V> {
    /// Who holds the object in a block (own): the cells that have a handle on it, each once, the free ones before the
    /// members by block; and how many owners and weak handles are in no cell, since a desk that was closed or joined
    /// held them still. Nobody where the domain had no such block. It is refused `Memory` only where a growth was
    /// really refused.
    pub fn holders(&self, alloc: Global, block: Block) -> Result<Holders, Refusal>
        ensures cells { HasBlock self.now block.0
            → IfOk result (λ h. h.cells.items ≡ holders_of self.now block.0) }
        ensures owners { HasBlock self.now block.0 → IfOk result (λ h. h.forgotten.owners
            ≡ owners_in self.now block.0 - many_of Owner (holders_of self.now block.0)) }
        ensures weaks { HasBlock self.now block.0 → IfOk result (λ h. h.forgotten.weaks
            ≡ weaks_in self.now block.0 - many_of Weak (holders_of self.now block.0)) }
        ensures none { (HasBlock self.now block.0 → ⊥) → IfOk result (λ h. (h.cells.items ≡ [])
            × (h.forgotten.owners ≡ 0) × (h.forgotten.weaks ≡ 0)) }
        ensures refused { IfErr result (λ why. why ≡ Refusal.Memory) }
    {
        let mut cells = Vec::new(alloc);
        if !self.has(block) {
            let forgotten = Counts {
                owners: 0,
                weaks: 0,
            };
            return Ok(Holders { cells, forgotten });
        }
        if self.add_all(block, &mut cells).is_err() {
            return Err(Refusal::Memory);
        }
        let forgotten = self.beyond(block, cells.as_slice());
        Ok(Holders { cells, forgotten })
    }

    /// How many more handles the object in the block has than these cells.
    fn beyond(&self, block: Block, cells: &[CellAt]) -> Counts
        requires { HasBlock self.now block.0 }
        ensures { (result.owners ≡ owners_in self.now block.0 - many_of Owner cells.now)
            × (result.weaks ≡ weaks_in self.now block.0 - many_of Weak cells.now) }
    {
        let Counts { owners, weaks } = self.counts_in(block);
        Counts {
            owners: (owners as usize).saturating_sub(count_kind(cells, Kind::Owner)) as u32,
            weaks: (weaks as usize).saturating_sub(count_kind(cells, Kind::Weak)) as u32,
        }
    }

    /// How many free cells there are.
    pub(crate) fn frees(&self) -> u32
        ensures { result ≡ frees_in self.now }
    {
        self.shape.shared_cells + self.shape.weak_cells
    }

    /// A free cell.
    pub(crate) fn free(&self, number: u32) -> CellAt
        ensures { result ≡ free_cell self.now number }
    {
        let site = Site::Free { number };
        let kind = if number < self.shape.shared_cells {
            Kind::Owner
        } else {
            Kind::Weak
        };
        CellAt { site, kind }
    }

    /// A member of the object in a block.
    pub(crate) fn member(&self, of: Block, member: u8) -> CellAt
        ensures { result ≡ member_cell self.now of.0 member }
    {
        CellAt {
            site: Site::Member { block: of, member },
            kind: self.shape.kind_of_member(member),
        }
    }

    /// Adds a cell, where it holds a handle on the object in the block.
    fn add(&self, cell: CellAt, block: Block, cells: &mut Vec<CellAt>) -> Result<(), AllocError>
        requires { IsCellOf self.now cell.site }
        ensures { OnOk result (cells.new.items ≡ cells.old.items ++ if_holds self.now block.0 cell) }
    {
        let word = self.closed.word(site_word(self.shape.blocks, cell.site));
        if owned_number(word) == u64::from(block.number()) {
            cells.push(cell)?;
        }
        Ok(())
    }

    /// Adds those of the free cells.
    fn add_free(&self, block: Block, cells: &mut Vec<CellAt>) -> Result<(), AllocError>
        ensures { OnOk result
            (cells.new.items ≡ cells.old.items ++ free_holders self.now block.0 (frees_in self.now)) }
    {
        for number in 0..self.frees() {
            self.add(self.free(number), block, cells)?;
        }
        Ok(())
    }

    /// Adds those of the members of the object in a block.
    fn add_members(
        &self,
        of: Block,
        block: Block,
        cells: &mut Vec<CellAt>,
    ) -> Result<(), AllocError>
        requires { HasBlock self.now of.0 }
        ensures { OnOk result (cells.new.items ≡ cells.old.items ++ block_holders self.now block.0 of.0) }
    {
        for member in 0..self.shape.members() {
            self.add(self.member(of, member), block, cells)?;
        }
        Ok(())
    }

    /// Adds those of all members.
    fn add_all_members(&self, block: Block, cells: &mut Vec<CellAt>) -> Result<(), AllocError>
        ensures { OnOk result
            (cells.new.items ≡ cells.old.items ++ member_holders self.now block.0 self.now.blocks) }
    {
        for before in 0..self.shape.blocks {
            self.add_members(Block::numbered(before + 1), block, cells)?;
        }
        Ok(())
    }

    /// Adds all of them.
    fn add_all(&self, block: Block, cells: &mut Vec<CellAt>) -> Result<(), AllocError>
        ensures { OnOk result (cells.new.items ≡ cells.old.items ++ holders_of self.now block.0) }
    {
        self.add_free(block, cells)?;
        self.add_all_members(block, cells)
    }
}
