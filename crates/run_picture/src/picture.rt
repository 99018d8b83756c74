//! What a picture shows.

use control_word::{Counts, Site};

/// What a block's counts are from an act on: its owners and weak pointers; none where it is vacant.
#[derive(Clone, Copy)]
pub struct Change {
    pub block: u32,
    pub counts: Option<Counts>,
}

/// A cell that an act wrote or read, and what is said of that.
#[derive(Drop)]
pub struct Touch {
    pub cell: Site,
    pub writes: bool,
    pub shown: String,
}

/// Where a pointer is: in a name of a thread, by its number, or in its hands, whose numbers are
/// behind those of its names; or in a cell.
#[derive(Clone, Copy)]
pub enum Holder {
    Name { thread: u8, number: u8 },
    Cell(Site),
}

/// A pointer to what is in a block, and whether it owns that.
#[derive(Clone, Copy)]
pub struct Pointer {
    pub holder: Holder,
    pub block: u32,
    pub is_owner: bool,
}

/// An act: its number in the run, its thread, its statement, what it did, the lines that it said,
/// the cell that it wrote or read, the counts that changed by it, and the pointers that its thread
/// and the cells have after it.
#[derive(Drop)]
pub struct Row {
    pub number: u32,
    pub thread: u8,
    pub statement: String,
    pub word: &'static str,
    pub lines: Vec<String>,
    pub touch: Option<Touch>,
    pub changes: Vec<Change>,
    pub pointers: Vec<Pointer>,
}

/// A block that is left, and its color.
#[derive(Clone, Copy)]
pub struct LeftBlock {
    pub block: u32,
    pub color: &'static str,
}

/// What is left at the end of a run, and its last line.
#[derive(Drop)]
pub struct Left {
    pub blocks: Vec<LeftBlock>,
    pub totals: String,
}

/// The acts of so many threads, in order, and what is left where the last of them is the run's
/// last. Of the free cells so many are shared; the weak ones follow. The script is lines that say
/// how its statements and names are written.
#[derive(Drop)]
pub struct Picture {
    pub threads: u8,
    pub shared_cells: u32,
    pub script: String,
    pub rows: Vec<Row>,
    pub left: Option<Left>,
}
