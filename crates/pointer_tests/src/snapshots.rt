//! Values that many threads read at once.

use pointer_calls::row;
use pointers::{Desk, Domain, Fault, Program, SharedCell, Team, run};
use std::alloc::Global;
use std::sync::Wait;
use std::thread::Threads;

/// Workers of which the first publishes a vector, and each reads a copy of it.
#[derive(Drop)]
struct Readers {
    alloc: Global,
}

/// The sum of the published vector, or none.
fn sum<R: Wait, D: Domain<Value = Vec<u64, Global>>>(
    rt: &R,
    desk: &Desk<D>,
) -> Result<Option<u64>, Fault> {
    match desk.load(rt, SharedCell(0))? {
        Some(now) => {
            let all = now.snapshot(rt)?;
            Ok(Some(all.iter().fold(0, |sum: u64, one| sum.wrapping_add(*one))))
        }
        None => Ok(None),
    }
}

impl<R: Threads + Wait + Sync> Program<Vec<u64, Global>, R> for Readers {
    fn work<D: Domain<Value = Vec<u64, Global>>>(
        &self,
        rt: &R,
        number: usize,
        desk: &Desk<D>,
    ) -> Result<(), Fault> {
        if number == 0 {
            let mut all = Vec::new(self.alloc);
            all.push(3)?;
            all.push(4)?;
            desk.new(all)?.store(SharedCell(0))?;
            return row(1, sum(rt, desk)? == Some(7));
        }
        match sum(rt, desk)? {
            Some(sum) => row(2, sum == 7),
            None => Ok(()),
        }
    }
}

#[cfg(test)]
mod tests {
    use super::*;

    #[test]
    fn a_copy_is_read_outside_of_a_visit(rt: HostRuntime) {
        let team = Team {
            workers: 2,
            pointers: 4,
        };
        let readers = Readers { alloc: rt.alloc() };
        match run(&rt, rt.alloc(), team.shape(8, 1, 0), team, &readers) {
            Ok(ran) => assert_eq!(rt; (ran.fault(), ran.census.vacant()), (None, 7)),
            Err(why) => panic!(rt; "{why}"),
        }
    }
}
