//! The lanes of a picture: one for each free cell that an act writes or reads, and one for each
//! block.

use crate::picture::{Change, Row, Touch};
use crate::sheet::LANE;
use control_word::{Counts, Site};
use std::alloc::{AllocError, Global};

/// What is in a block's lane: its last counts, and where they began to be drawn as they are.
#[derive(Clone, Copy)]
pub(crate) struct Lane {
    pub block: u32,
    pub counts: Option<Counts>,
    pub since: u32,
}

/// Where the lanes are.
#[derive(Drop)]
pub(crate) struct Lanes {
    pub left: u32,
    pub cells: Vec<u32>,
    pub blocks: Vec<Lane>,
}

fn add_cell(cells: &mut Vec<u32>, row: &Row) -> Result<(), AllocError> {
    if let Some(
        Touch {
            cell: Site::Free { number },
            ..
        },
    ) = &row.touch
    {
        if !cells.as_slice().contains(number) {
            cells.push(*number)?;
        }
    }
    Ok(())
}

/// The free cells that rows write or read, in order.
fn cells_of(alloc: Global, rows: &[Row]) -> Result<Vec<u32>, AllocError> {
    let mut cells = Vec::new(alloc);
    for row in rows {
        add_cell(&mut cells, row)?;
    }
    cells.sort()?;
    Ok(cells)
}

/// Adds the blocks of changes.
fn add_blocks(blocks: &mut Vec<u32>, changes: &[Change]) -> Result<(), AllocError> {
    for change in changes {
        blocks.push(change.block)?;
    }
    Ok(())
}

/// A lane for each of these blocks, which are in order.
fn lanes_by(alloc: Global, blocks: &[u32]) -> Result<Vec<Lane>, AllocError> {
    let mut lanes = Vec::new(alloc);
    let mut last = 0;
    for block in blocks {
        if *block != last {
            lanes.push(Lane {
                block: *block,
                counts: None,
                since: 0,
            })?;
        }
        last = *block;
    }
    Ok(lanes)
}

/// A lane for each block whose counts change by one of the rows, in order.
fn blocks_of(alloc: Global, rows: &[Row]) -> Result<Vec<Lane>, AllocError> {
    let mut blocks = Vec::new(alloc);
    for row in rows {
        add_blocks(&mut blocks, row.changes.as_slice())?;
    }
    blocks.sort()?;
    lanes_by(alloc, blocks.as_slice())
}

/// The lanes of rows, from a place on.
pub(crate) fn lanes_of(alloc: Global, left: u32, rows: &[Row]) -> Result<Lanes, AllocError> {
    Ok(Lanes {
        left,
        cells: cells_of(alloc, rows)?,
        blocks: blocks_of(alloc, rows)?,
    })
}

impl Lanes {
    /// The middle of the lane with this number, from 0.
    fn lane(&self, number: usize) -> u32 {
        let few = number.min(100_000) as u32;
        self.left
            .saturating_add(few * LANE)
            .saturating_add(LANE / 2)
    }

    pub(crate) fn block_lane(&self, index: usize) -> u32 {
        self.lane(self.cells.len().saturating_add(index))
    }

    pub(crate) fn cell_lane(&self, index: usize) -> u32 {
        self.lane(index)
    }

    /// The lane of a cell: a free one's own, and for a member that of the object's block.
    pub(crate) fn place_of(&self, cell: Site) -> u32 {
        match cell {
            Site::Free { number } => match self.cells.iter().position(|it| *it == number) {
                Some(index) => self.cell_lane(index),
                None => self.left,
            },
            Site::Member { block, .. } => self.block_place(block.number()),
        }
    }

    /// The lane of a block.
    pub(crate) fn block_place(&self, block: u32) -> u32 {
        match self.index_of(block) {
            Some(index) => self.block_lane(index),
            None => self.left,
        }
    }

    /// Which lane is a block's.
    pub(crate) fn index_of(&self, block: u32) -> Option<usize> {
        self.blocks.iter().position(|it| it.block == block)
    }

    /// Where the lanes end.
    pub(crate) fn right(&self) -> u32 {
        let number = self.cells.len().saturating_add(self.blocks.len());
        self.lane(number)
    }
}
