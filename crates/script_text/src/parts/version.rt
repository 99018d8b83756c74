//! Versions of the language, which decide numbers alone.

ghost use Rattle.std.specs.Prelude.{◌≡◌};
ghost use Rattle.text_lines.specs.Reading.{Gives};
ghost use Rattle.script_text.specs.Shapes.{texts};
ghost use Rattle.script_text.specs.Versions.{blocks_in, most_threads, blocks_at, version_named};
ghost use Rattle.script_text.specs.Versions.{version_at};

use crate::fault::{Cause, Stop};
use crate::words::word::number_of;
use step_table::limits::{MOST_ACTORS, SCRIPT_BLOCKS, SCRIPT_THREADS};

/// The fewest blocks that a header may name: one for each of the most threads.
const LEAST_BLOCKS: u64 = 64;

/// The most blocks that a header may name.
const MOST_BLOCKS: u64 = 65_535;

/// The version of a script.
#[derive(Clone, Copy)]
pub(crate) enum Version {
    /// A script without a header.
    One,
    /// The header is `version 2 blocks N`.
    Two { blocks: u32 },
}

impl Version {
    /// How many blocks the threads share.
    pub(crate) fn blocks(self) -> u32
        ensures { result ≡ blocks_in self }
    {
        match self {
            Version::One => SCRIPT_BLOCKS,
            Version::Two { blocks } => blocks,
        }
    }

    /// How many threads a script has at most.
    pub(crate) fn most_threads(self) -> usize
        ensures { result ≡ most_threads self }
    {
        match self {
            Version::One => SCRIPT_THREADS as usize,
            Version::Two { .. } => MOST_ACTORS as usize,
        }
    }
}

/// The number of blocks that a word is.
#[tactic(auto, unfolding(crate::specs::Versions::blocks_at))]
fn blocks_of(word: &[u8]) -> Result<u32, Stop>
    ensures { Gives (λ n. n) result (blocks_at word.now) }
{
    let number = number_of(word)?;
    if number < LEAST_BLOCKS || MOST_BLOCKS < number {
        return Err(Stop::Cause(Cause::BadNumber));
    }
    Ok(number as u32)
}

/// The version that these three words name.
#[tactic(auto, unfolding(crate::specs::Versions::version_named))]
fn version_named(number: &[u8], unit: &[u8], blocks: &[u8]) -> Result<Version, Stop>
    ensures { Gives (λ v. v) result (version_named number.now unit.now blocks.now) }
{
    if number != b"2".as_slice() {
        return Err(Stop::Cause(Cause::BadVersion));
    }
    if unit != b"blocks".as_slice() {
        return Err(Stop::Cause(Cause::BadVersion));
    }
    let blocks = blocks_of(blocks)?;
    Ok(Version::Two { blocks })
}

/// The version that a header names, by the words after its first.
pub(crate) fn version_of(words: &[&[u8]]) -> Result<Version, Stop>
    ensures { Gives (λ v. v) result (version_at (texts words.now)) }
{
    let [number, unit, blocks] = words else {
        return Err(Stop::Cause(Cause::WrongNumberOfWords));
    };
    version_named(number, unit, blocks)
}
