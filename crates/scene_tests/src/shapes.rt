//! The shapes of the domains that tests open.
ghost use Rattle.std.specs.Prelude.{◌≡◌};

use control_word::Shape;

/// A domain with five free shared cells: 0 is for a stack, 1 for observers, and the others are for handles.
pub fn shape(blocks: u32, allowance: u32) -> Shape
    ensures { result ≡ record {
      blocks = blocks;
      owners = 2;
      weaks = 1;
      shared_cells = 5;
      weak_cells = 0;
      allowance = allowance;
    } }
{
    Shape {
        blocks,
        owners: 2,
        weaks: 1,
        shared_cells: 5,
        weak_cells: 0,
        allowance,
    }
}
