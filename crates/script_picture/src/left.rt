//! What is left at a run's end, as a picture shows it.

use leak_report::colors;
use run_picture::{Left, LeftBlock};
use script_stepper::{End, put_totals};
use std::alloc::{AllocError, Global};

/// The last line of a run, without its line feed.
fn totals_of(alloc: Global, end: &End) -> Result<String, AllocError> {
    let mut line = String::new(alloc);
    put_totals(
        &mut line,
        u64::from(end.world.made()),
        u64::from(end.world.ended()),
    )?;
    match line.as_str().split_once('\n') {
        Some((before, _)) => String::from_str(alloc, before),
        None => Ok(line),
    }
}

/// What is left at a run's end.
pub(crate) fn left_of(alloc: Global, end: &End) -> Result<Left, AllocError> {
    let mut blocks = Vec::new(alloc);
    for colored in colors(alloc, end)? {
        blocks.push(LeftBlock {
            block: u32::from(colored.block),
            color: colored.color,
        })?;
    }
    Ok(Left {
        blocks,
        totals: totals_of(alloc, end)?,
    })
}
