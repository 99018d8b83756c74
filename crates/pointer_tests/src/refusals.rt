//! Programs that are not run.

use pointers::{Desk, Domain, Fault, Program, Shape, Team, run};
use std::alloc::Global;
use std::sync::Wait;
use std::thread::Threads;

/// A worker that is never to work.
struct Idle;

impl<R: Threads + Wait + Sync> Program<u64, R> for Idle {
    fn work<D: Domain<Value = u64>>(
        &self,
        _rt: &R,
        _number: usize,
        _desk: &Desk<D>,
    ) -> Result<(), Fault> {
        Err(Fault::Other(1))
    }
}

/// Blocks, shared cells, weak cells, allowance; members for owners and weak ones; workers, pointers; and why no program
/// is run so.
const ROWS: [([u32; 4], (u32, u32), (usize, u32), &str); 18] = [
    ([0, 0, 0, 9], (2, 1), (1, 4), "blocks 0, at least 1"),
    (
        [4_000_001, 0, 0, 9],
        (2, 1),
        (1, 4),
        "blocks 4000001, at most 4000000",
    ),
    (
        [2_097_152, 0, 0, 7],
        (8, 1),
        (1, 4),
        "blocks 2097152, at most 2097150",
    ),
    (
        [1_200_000, 65_536, 0, 4_194_304],
        (2, 7),
        (1, 4),
        "blocks 1200000, at most 1189010",
    ),
    ([1, 0, 0, 9], (1, 1), (1, 4), "owners 1, at least 2"),
    ([1, 0, 0, 9], (9, 0), (1, 4), "owners 9, at most 8"),
    ([1, 0, 0, 9], (2, 0), (1, 4), "weaks 0, at least 1"),
    ([1, 0, 0, 9], (2, 8), (1, 4), "weaks 8, at most 7"),
    ([1, 0, 0, 9], (8, 2), (1, 4), "weaks 2, at most 1"),
    (
        [1, 65_537, 0, 9],
        (2, 1),
        (1, 4),
        "shared_cells 65537, at most 65536",
    ),
    (
        [1, 60_000, 5_537, 9],
        (2, 1),
        (1, 4),
        "weak_cells 5537, at most 5536",
    ),
    ([1, 0, 0, 0], (2, 1), (1, 4), "allowance 0, at least 1"),
    (
        [1, 0, 0, 4_194_305],
        (2, 1),
        (1, 4),
        "allowance 4194305, at most 4194304",
    ),
    ([1, 0, 0, 6], (2, 1), (1, 4), "allowance 6, at least 7"),
    ([1, 0, 0, 18], (2, 1), (3, 4), "allowance 18, at least 19"),
    ([65_535, 65_536, 0, 7], (2, 1), (1, 4), ""),
    ([1, 0, 0, 7], (8, 1), (1, 4), ""),
    ([1, 0, 0, 7], (2, 7), (1, 4), ""),
];

/// Why the program is not run, or nothing where it is.
fn why_not<R: Threads + Wait + Sync>(
    rt: &R,
    alloc: Global,
    shape: [u32; 4],
    (owners, weaks): (u32, u32),
    team: (usize, u32),
) -> Result<String, Fault> {
    let [blocks, shared_cells, weak_cells, allowance] = shape;
    let shape = Shape {
        blocks,
        owners,
        weaks,
        shared_cells,
        weak_cells,
        allowance,
    };
    let (workers, pointers) = team;
    match run::<u64, R, Idle>(rt, alloc, shape, Team { workers, pointers }, &Idle) {
        Ok(_) => Ok(String::new(alloc)),
        Err(why) => Ok(format!(in alloc; "{why}")?),
    }
}

#[cfg(test)]
mod tests {
    use super::*;

    #[test]
    fn a_number_that_does_not_fit_is_told(rt: HostRuntime) {
        for (shape, members, team, wanted) in &ROWS {
            match why_not(&rt, rt.alloc(), *shape, *members, *team) {
                Ok(why) => assert_eq!(rt; why.as_str(), *wanted),
                Err(why) => panic!(rt; "{why}"),
            }
        }
    }
}
