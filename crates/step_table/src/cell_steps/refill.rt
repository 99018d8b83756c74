//! How a thread goes on that took a fund of a cell, until the cell is refilled.

/// How far a thread is that took a fund of a cell.
#[derive(Clone, Copy)]
pub enum Stage {
    /// The fund is out, and is to be turned into a handle.
    Turning,
    /// Many funds were taken: the cell is to be looked at.
    Checking,
    /// It holds the same value still: as many funds are to be brought as were taken.
    Lacking,
    /// They are out, and are to go into the cell.
    Refilling,
    /// The cell showed something else: they are to be given back.
    Failing,
}
