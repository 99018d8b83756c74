//! What a report tells, as text (own).
ghost use Rattle.std.specs.Prelude.{◌≡◌, ◌≤◌, IfOk, OnOk, length, string_bytes};
ghost use Rattle.control_block.specs.Census.{HasBlock};
ghost use Rattle.script_text.specs.Canonical.{AddsLines};
ghost use Rattle.script_text.specs.Grammar.{ended};
ghost use Rattle.script_runner.specs.Telling.{closed_block_lines, closed_census_lines, report_lines, threads_lines};

use crate::reports::report::Report;
use control_block::census::Census;
use control_word::Block;
use script_stepper::{put_block, put_lines, put_totals};
use std::alloc::{AllocError, Global};
use step_core::Said;

/// Adds the lines of all threads, in thread order.
fn put_threads(text: &mut String, lines: &[Vec<Said>]) -> Result<(), AllocError>
    requires { length lines.now ≤ 64 }
    ensures { OnOk result (AddsLines text.old text.new (threads_lines 1 lines.now)) }
{
    for (at, said) in lines.iter().enumerate() {
        put_lines(text, at as u8 + 1, said.as_slice())?;
    }
    Ok(())
}

/// Adds the line of a block, where it isn't vacant.
fn put_counts(text: &mut String, census: &Census<u64>, block: Block) -> Result<(), AllocError>
    requires { HasBlock census.now block.0 }
    ensures { OnOk result (AddsLines text.old text.new (closed_block_lines census.now block.0)) }
{
    if !census.is_vacant(block) {
        put_block(text, block, census.counts(block))?;
    }
    Ok(())
}

/// Adds a line for each block that isn't vacant, in block order.
fn put_census(text: &mut String, census: &Census<u64>) -> Result<(), AllocError>
    ensures { OnOk result (AddsLines text.old text.new (closed_census_lines census.now)) }
{
    for before in 0..census.blocks() {
        put_counts(text, census, Block::numbered(before + 1))?;
    }
    Ok(())
}

impl Report {
    /// The text that tells of it and of a census of its domain (own): all lines of thread 1, then of thread 2 and so
    /// on, as [`script_stepper::write_lines`] writes them; `block B owners N weaks K` of each block that isn't vacant,
    /// in block order; and last `made M ended E left L`. Refused where a growth was.
    pub fn text(&self, alloc: Global, census: &Census<u64>) -> Result<String, AllocError>
        ensures { IfOk result (λ text. string_bytes text ≡ ended (report_lines self.now census.now)) }
    {
        let mut text = String::new(alloc);
        put_threads(&mut text, self.lines.as_slice())?;
        put_census(&mut text, census)?;
        put_totals(&mut text, self.totals.made, self.totals.ended)?;
        Ok(text)
    }
}
