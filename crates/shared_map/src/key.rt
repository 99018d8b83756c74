//! Keys, and where they lie.
ghost use Rattle.std.specs.Prelude.{◌≡◌, fold};
ghost use Rattle.std.specs.Hash.FoldHasher as folding;

use std::hash::{FoldHasher, Hash, Hasher};

/// 2^64 over the golden ratio: multiples of it are evenly spread.
const SPREAD: u64 = 0x9E37_79B9_7F4A_7C15;

/// The number of a key's bucket among so many.
#[inline(always)]
pub(crate) fn bucket_of(key: u64, buckets: usize) -> usize {
    let spread = key.wrapping_mul(SPREAD) >> 32;
    (spread.wrapping_mul(buckets as u64) >> 32) as usize
}

/// The key of a map for a program's own key: its hash. Two keys of one hash are one key to the map: of 10,000 keys two
/// have one by a chance of 3 in a million million, where nobody chose them so.
pub fn hash_of<K: Hash>(key: &K) -> u64
    ensures { result ≡ folding.finish (fold folding.write folding.initial (K.hash_input key.now)) }
{
    let mut hasher = FoldHasher::default();
    key.hash(&mut hasher);
    hasher.finish()
}
