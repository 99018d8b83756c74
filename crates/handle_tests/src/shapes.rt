//! The shapes of the domains that tests open.
ghost use Rattle.std.specs.Prelude.{◌≡◌};

use control_word::Shape;

/// A shape with free cells of both kinds.
pub fn shape_with_cells(blocks: u32, shared_cells: u32, weak_cells: u32, allowance: u32) -> Shape
    ensures { result ≡ record {
      blocks = blocks;
      owners = 2;
      weaks = 1;
      shared_cells = shared_cells;
      weak_cells = weak_cells;
      allowance = allowance;
    } }
{
    Shape {
        blocks,
        owners: 2,
        weaks: 1,
        shared_cells,
        weak_cells,
        allowance,
    }
}

/// A shape without cells.
pub fn shape(blocks: u32, allowance: u32) -> Shape
    ensures { result ≡ record {
      blocks = blocks;
      owners = 2;
      weaks = 1;
      shared_cells = 0;
      weak_cells = 0;
      allowance = allowance;
    } }
{
    shape_with_cells(blocks, 0, 0, allowance)
}

/// A shape of so many owner and weak members, without cells.
pub fn shape_of_members(owners: u32, weaks: u32, blocks: u32, allowance: u32) -> Shape
    ensures { result ≡ record {
      blocks = blocks;
      owners = owners;
      weaks = weaks;
      shared_cells = 0;
      weak_cells = 0;
      allowance = allowance;
    } }
{
    Shape {
        blocks,
        owners,
        weaks,
        shared_cells: 0,
        weak_cells: 0,
        allowance,
    }
}
