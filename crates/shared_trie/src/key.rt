//! Keys, and their way down a trie.
ghost use Rattle.std.specs.Prelude.{◌≡◌, ◌<◌, ◌≤◌, ◌^◌, SomeIff};
ghost use Rattle.shared_trie.specs.Places.{key_at, place_behind};
ghost use Rattle.shared_trie.specs.Tries.{number_at};

/// 2^64 over the golden ratio: multiples of it are evenly spread.
const SPREAD: u64 = 0x9E37_79B9_7F4A_7C15;

/// The inverse of `SPREAD`: their product is 1, in 64 bits.
const INVERSE: u64 = 0xF1DE_83E1_9937_733D;

/// The last level: two keys that go one way to its members are one key.
pub(crate) const LAST: u32 = 21;

/// The number of the member of a node of a level that a key goes by: three bits of the spread key, the highest first.
#[inline(always)]
pub(crate) fn number_at(key: u64, level: u32) -> u8
    requires { level ≤ 21 }
    ensures { result ≡ number_at key level }
{
    let spread = key.wrapping_mul(SPREAD);
    ((spread << (3 * level)) >> 61) as u8
}

/// The key at a place of the order in which keys lie in a trie, that of what they are spread to.
#[inline(always)]
pub(crate) fn key_at(place: u64) -> u64
    ensures { result ≡ key_at place }
{
    place.wrapping_mul(INVERSE)
}

/// The first place behind those of all keys that go by one member of a node of a level, if there is one.
#[inline(always)]
pub(crate) fn place_behind(place: u64, level: u32) -> Option<u64>
    requires { level ≤ 21 }
    ensures { SomeIff result (place_behind place level < 2 ^ 64) (place_behind place level) }
{
    let low = 61u32.saturating_sub(3 * level);
    ((place >> low) << low).checked_add(1 << low)
}
