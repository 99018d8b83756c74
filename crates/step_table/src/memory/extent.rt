//! How large a world is.

use control_word::Shape;

/// The shape of a world's table, and how many actors share it.
#[derive(Clone, Copy, Drop)]
pub struct Extent {
    pub shape: Shape,
    /// 1 to 64.
    pub actors: u32,
}
