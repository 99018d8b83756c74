//! A script while its lines come in.

ghost use Rattle.std.specs.Prelude.{◌≡◌, ◌&&◌, codes};
ghost use Rattle.std.specs.Str.{bytes_eq};
ghost use Rattle.text_lines.specs.Reading.{Gives};
ghost use Rattle.script_text.specs.Shapes.{texts};
ghost use Rattle.script_text.specs.Drafts.{draft_of, draft_in, is_new, next_thread, next_call};
ghost use Rattle.script_text.specs.Drafts.{header_line};
ghost use Rattle.script_text.specs.Drafts.{thread_line, statement_line, after_words, other_line};
ghost use Rattle.script_text.specs.Drafts.{told_line};

use crate::fault::{Cause, Stop};
use crate::parts::statement::call_of;
use crate::parts::thread::{Thread, empty_thread};
use crate::parts::version::{Version, version_of};
use crate::words::keyword::{Keyword, keyword_of, takes};
use std::alloc::Global;
use std::mem;
use step_table::limits::SCRIPT_STATEMENTS;
use text_lines::{LineReader, is_clean, line_content, words_in};

/// The version, the threads before the current one, that one, and how many statements all have.
#[derive(Drop)]
pub(crate) struct Draft {
    pub version: Version,
    pub done: Vec<Thread>,
    pub current: Thread,
    pub count: u32,
}

/// The draft of a version before the first line of its threads.
pub(crate) fn empty_draft(alloc: Global, version: Version) -> Draft
    ensures { draft_of result ≡ draft_in version }
{
    Draft {
        version,
        done: Vec::new(alloc),
        current: empty_thread(alloc),
        count: 0,
    }
}

fn begin_thread(alloc: Global, draft: &mut Draft) -> Result<(), Stop>
    ensures { Gives (λ _. draft_of draft.new) result (next_thread (draft_of draft.old)) }
{
    if draft.done.len() + 1 >= draft.version.most_threads() {
        return Err(Stop::Cause(Cause::TooManyThreads));
    }
    let full = mem::replace(&mut draft.current, empty_thread(alloc));
    draft.done.push(full)?;
    Ok(())
}

fn add_call(alloc: Global, draft: &mut Draft, keyword: Keyword, words: &[&[u8]]) -> Result<(), Stop>
    ensures { Gives (λ _. draft_of draft.new) result
        (next_call (draft_of draft.old) keyword (texts words.now)) }
{
    if draft.count >= SCRIPT_STATEMENTS {
        return Err(Stop::Cause(Cause::TooManyStatements));
    }
    let call = call_of(alloc, &mut draft.current.names, keyword, words)?;
    draft.current.calls.push(call)?;
    draft.count += 1;
    Ok(())
}

/// Whether all lines so far were skipped.
fn is_new(draft: &Draft) -> bool
    ensures { result ≡ is_new (draft_of draft.now) }
{
    matches!(draft.version, Version::One) && draft.done.is_empty() && draft.count == 0
}

/// Whether a line that begins so is a header, which is the first line that isn't skipped.
fn is_header(draft: &Draft, first: &[u8]) -> bool
    ensures { result ≡ (is_new (draft_of draft.now) && bytes_eq first.now (codes "version")) }
{
    is_new(draft) && first == b"version".as_slice()
}

fn add_header_line(alloc: Global, draft: &mut Draft, words: &[&[u8]]) -> Result<(), Stop>
    ensures { Gives (λ _. draft_of draft.new) result (header_line (texts words.now)) }
{
    let version = version_of(words)?;
    *draft = empty_draft(alloc, version);
    Ok(())
}

fn add_thread_line(alloc: Global, draft: &mut Draft, words: &[&[u8]]) -> Result<(), Stop>
    ensures { Gives (λ _. draft_of draft.new) result
        (thread_line (draft_of draft.old) (texts words.now)) }
{
    if !words.is_empty() {
        return Err(Stop::Cause(Cause::WrongNumberOfWords));
    }
    begin_thread(alloc, draft)
}

fn add_statement_line(
    alloc: Global,
    draft: &mut Draft,
    first: &[u8],
    words: &[&[u8]],
) -> Result<(), Stop>
    ensures { Gives (λ _. draft_of draft.new) result
        (statement_line (draft_of draft.old) first.now (texts words.now)) }
{
    let keyword = keyword_of(first)?;
    if !takes(keyword, words.len()) {
        return Err(Stop::Cause(Cause::WrongNumberOfWords));
    }
    add_call(alloc, draft, keyword, words)
}

/// A line that is no header.
fn add_other_line(
    alloc: Global,
    draft: &mut Draft,
    first: &[u8],
    words: &[&[u8]],
) -> Result<(), Stop>
    ensures { Gives (λ _. draft_of draft.new) result
        (other_line (draft_of draft.old) first.now (texts words.now)) }
{
    if first == b"thread".as_slice() {
        return add_thread_line(alloc, draft, words);
    }
    add_statement_line(alloc, draft, first, words)
}

/// A line that isn't skipped.
fn add_told_line(
    alloc: Global,
    draft: &mut Draft,
    first: &[u8],
    words: &[&[u8]],
) -> Result<(), Stop>
    ensures { Gives (λ _. draft_of draft.new) result
        (told_line (draft_of draft.old) first.now (texts words.now)) }
{
    if is_header(draft, first) {
        return add_header_line(alloc, draft, words);
    }
    add_other_line(alloc, draft, first, words)
}

fn add_words(alloc: Global, draft: &mut Draft, words: &[&[u8]]) -> Result<(), Stop>
    ensures { Gives (λ _. draft_of draft.new) result
        (after_words (draft_of draft.old) (texts words.now)) }
{
    let [first, rest @ ..] = words else {
        return Ok(());
    };
    if first.starts_with(b"#".as_slice()) {
        return Ok(());
    }
    add_told_line(alloc, draft, first, rest)
}

impl LineReader for Draft {
    ghost use Rattle.script_text.specs.Drafts.{Draft as DraftView, after_line, draft_of};

    type Cause = Cause;

    ghost State = { DraftView };

    ghost seen = { draft_of };

    ghost after = { after_line };

    fn add_line(&mut self, alloc: Global, line: &[u8]) -> Result<(), Stop> {
        let line = line_content(line);
        if !is_clean(line) {
            return Err(Stop::Cause(Cause::BadByte));
        }
        let words = words_in(alloc, line)?;
        add_words(alloc, self, words.as_slice())
    }
}
