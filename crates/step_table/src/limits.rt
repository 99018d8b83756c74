//! Limits of scripts, and of the actors that play them (own).

/// Blocks that a script has.
pub const SCRIPT_BLOCKS: u32 = 4_095;
/// Threads of a script, which has at least one.
pub const SCRIPT_THREADS: u32 = 16;
/// Names of a thread.
pub const SCRIPT_NAMES: u32 = 32;
/// Statements of a script.
pub const SCRIPT_STATEMENTS: u32 = 65_536;
/// Bytes of a name, which has at least one.
pub const NAME_BYTES: usize = 16;
/// Owner members of a script's object: `first` and `next`.
pub const SCRIPT_OWNERS: u32 = 2;
/// Weak members of it: `up`.
pub const SCRIPT_WEAKS: u32 = 1;
/// Free shared cells that a script has.
pub const SCRIPT_SHARED_CELLS: u32 = 128;
/// Free weak cells that a script has.
pub const SCRIPT_WEAK_CELLS: u32 = 128;
/// Allowance of a script's world.
pub const SCRIPT_ALLOWANCE: u32 = 1_048_576;
/// Allowance of each desk where a script runs on threads.
pub const WORKER_ALLOWANCE: u32 = 65_535;
/// Actors of a program.
pub const MOST_ACTORS: u32 = 64;
