//! Where an index lies: eight of a leaf, and eight times as many at each level above.
ghost use Rattle.std.specs.Prelude.{◌≡◌, ◌≤◌, ◌/◌, ◌^◌};
ghost use Rattle.shared_vec.specs.Vectors.{number_at};

/// The most levels above the leaves: any index has room below a root of that level.
pub(crate) const MOST: u32 = 21;

/// How many nodes of a level lie before an index.
#[inline(always)]
pub(crate) fn nodes_before(index: usize, level: u32) -> usize
    requires { level ≤ 21 }
    ensures { result ≡ index / 8 ^ level }
{
    index >> (3 * level)
}

/// The number of the member of a node of a level that an index goes by.
#[inline(always)]
pub(crate) fn number_at(index: usize, level: u32) -> u8
    requires { level ≤ 21 }
    ensures { result ≡ number_at index level }
{
    (nodes_before(index, level) % 8) as u8
}
