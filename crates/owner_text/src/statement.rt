//! What each line adds to a graph.

ghost use Rattle.owner_text.specs.Prelude.{Gives};
ghost use Rattle.owner_text.specs.Drafts.{after_words, draft_of, handle_line, labelled};
ghost use Rattle.owner_text.specs.Drafts.{object_line, root_line, statement_line};

use crate::draft::{Draft, Ends, add_handle, name_object};
use crate::fault::{Cause, Stop};
use crate::words::{label_of, object_number};
use std::alloc::Global;
use text_lines::{
    LineReader, after_word, first_word, is_clean, line_content, without_last_spaces, without_spaces,
};

/// A line that names an object.
fn add_object_line(alloc: Global, draft: &mut Draft, rest: &[u8]) -> Result<(), Stop>
    ensures { Gives (λ _. draft_of draft.new) result (object_line (draft_of draft.old) rest.now) }
{
    if rest.is_empty() {
        return Err(Stop::Cause(Cause::WrongNumberOfWords));
    }
    let number = object_number(first_word(rest))?;
    let label = label_of(after_word(rest))?;
    name_object(alloc, draft, number, label)
}

/// A handle, by its label.
fn add_labelled(alloc: Global, draft: &mut Draft, ends: Ends, rest: &[u8]) -> Result<(), Stop>
    ensures { Gives (λ _. draft_of draft.new) result
        (labelled (draft_of draft.old) ends.from ends.to ends.is_owner rest.now) }
{
    let label = label_of(rest)?;
    add_handle(alloc, draft, ends, label)
}

/// A line of what is no object.
fn add_root_line(alloc: Global, draft: &mut Draft, rest: &[u8]) -> Result<(), Stop>
    ensures { Gives (λ _. draft_of draft.new) result (root_line (draft_of draft.old) rest.now) }
{
    let label = after_word(rest);
    if label.is_empty() {
        return Err(Stop::Cause(Cause::WrongNumberOfWords));
    }
    let to = object_number(first_word(rest))?;
    let ends = Ends {
        from: 0,
        to,
        is_owner: true,
    };
    add_labelled(alloc, draft, ends, label)
}

/// A line of a handle in an object.
fn add_handle_line(
    alloc: Global,
    draft: &mut Draft,
    is_owner: bool,
    rest: &[u8],
) -> Result<(), Stop>
    ensures { Gives (λ _. draft_of draft.new) result
        (handle_line (draft_of draft.old) is_owner rest.now) }
{
    let second = after_word(rest);
    let label = after_word(second);
    if label.is_empty() {
        return Err(Stop::Cause(Cause::WrongNumberOfWords));
    }
    let from = object_number(first_word(rest))?;
    let to = object_number(first_word(second))?;
    let ends = Ends { from, to, is_owner };
    add_labelled(alloc, draft, ends, label)
}

/// A line that isn't skipped.
fn add_statement(alloc: Global, draft: &mut Draft, first: &[u8], rest: &[u8]) -> Result<(), Stop>
    ensures { Gives (λ _. draft_of draft.new) result
        (statement_line (draft_of draft.old) first.now rest.now) }
{
    if first == b"object".as_slice() {
        add_object_line(alloc, draft, rest)
    } else if first == b"owner".as_slice() {
        add_handle_line(alloc, draft, true, rest)
    } else if first == b"weak".as_slice() {
        add_handle_line(alloc, draft, false, rest)
    } else if first == b"root".as_slice() {
        add_root_line(alloc, draft, rest)
    } else {
        Err(Stop::Cause(Cause::UnknownStatement))
    }
}

/// A line from its first word to its last.
fn add_words(alloc: Global, draft: &mut Draft, line: &[u8]) -> Result<(), Stop>
    ensures { Gives (λ _. draft_of draft.new) result (after_words (draft_of draft.old) line.now) }
{
    let [first, ..] = line else {
        return Ok(());
    };
    if *first == b'#' {
        return Ok(());
    }
    add_statement(alloc, draft, first_word(line), after_word(line))
}

impl LineReader for Draft {
    ghost use Rattle.owner_text.specs.Drafts.{Draft as DraftView, after_line, draft_of};

    type Cause = Cause;

    ghost State = { DraftView };

    ghost seen = { draft_of };

    ghost after = { after_line };

    fn add_line(&mut self, alloc: Global, line: &[u8]) -> Result<(), Stop> {
        let line = line_content(line);
        if !is_clean(line) {
            return Err(Stop::Cause(Cause::BadByte));
        }
        add_words(alloc, self, without_spaces(without_last_spaces(line)))
    }
}
