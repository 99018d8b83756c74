//! A script as canonical text.

ghost use Rattle.std.specs.Prelude.{◌≡◌, map, OnOk, IfOk, IsOkUnless, string_bytes};
ghost use Rattle.std.specs.List.{flat_map};
ghost use Rattle.control_word.specs.declared.refusal.Refusal.TheVariants.{Memory};
ghost use Rattle.script_text.specs.Drafts.{section_of};
ghost use Rattle.script_text.specs.Grammar.{ReadsAs};
ghost use Rattle.script_text.specs.Canonical.{AddsLines, section_lines, begun_lines, thread_lines};
ghost use Rattle.script_text.specs.Canonical.{header_lines};
ghost use Rattle.script_text.specs.Canonical.{canonical};

use crate::line::put_call;
use crate::parts::thread::Thread;
use crate::parts::version::Version;
use crate::script::Script;
use control_word::Refusal;
use std::alloc::{AllocError, Global};
use std::fmt::Write;

/// Adds the lines of a thread.
fn put_thread(text: &mut String, thread: &Thread) -> Result<(), AllocError>
    ensures { OnOk result (AddsLines text.old text.new (section_lines (section_of thread.now))) }
{
    for call in &thread.calls {
        put_call(text, &thread.names, call)?;
    }
    Ok(())
}

/// Adds the lines of a thread, after the line that begins it.
fn put_begun(text: &mut String, thread: &Thread) -> Result<(), AllocError>
    ensures { OnOk result (AddsLines text.old text.new (begun_lines (section_of thread.now))) }
{
    text.push_str("thread\n")?;
    put_thread(text, thread)
}

/// Adds the lines of the threads but the first.
fn put_others(text: &mut String, threads: &[Thread]) -> Result<(), AllocError>
    ensures { OnOk result
        (AddsLines text.old text.new (flat_map begun_lines (map section_of threads.now))) }
{
    for thread in threads {
        put_begun(text, thread)?;
    }
    Ok(())
}

/// Adds the lines of all threads.
fn put_threads(text: &mut String, threads: &[Thread]) -> Result<(), AllocError>
    ensures { OnOk result (AddsLines text.old text.new
        (thread_lines (map section_of threads.now))) }
{
    let [first, others @ ..] = threads else {
        return Ok(());
    };
    put_thread(text, first)?;
    put_others(text, others)?;
    Ok(())
}

/// Adds the header of a version, if it has one.
fn put_header(text: &mut String, version: Version) -> Result<(), AllocError>
    ensures { OnOk result (AddsLines text.old text.new (header_lines version)) }
{
    if let Version::Two { blocks } = version {
        writeln!(text, "version 2 blocks {blocks}")?;
    }
    Ok(())
}

fn script_text(alloc: Global, version: Version, threads: &[Thread]) -> Result<String, AllocError>
    ensures { IfOk result (λ text.
        string_bytes text ≡ canonical (record
        { version = version; threads = map section_of threads.now })) }
{
    let mut text = String::new(alloc);
    put_header(&mut text, version)?;
    put_threads(&mut text, threads)?;
    Ok(text)
}

/// The canonical text of a script (own): the header of version 2, no line that is skipped, single
/// spaces, numbers without leading zeros, four fields after each `make`. It spells the same script.
///
/// Refused by 1 alone, where a growth is refused.
pub fn print(alloc: Global, script: &Script) -> Result<String, Refusal>
    ensures canonical { IfOk result (λ text. string_bytes text ≡ canonical script.now) }
    ensures reads { IfOk result (λ text. ReadsAs (string_bytes text) script.now) }
    ensures memory { IsOkUnless result Memory }
{
    match script_text(alloc, script.version, script.threads.as_slice()) {
        Ok(text) => Ok(text),
        Err(_) => Err(Refusal::Memory),
    }
}
