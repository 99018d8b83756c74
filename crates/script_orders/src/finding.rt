//! The first turns by which a line is told.

ghost use Rattle.std.specs.Prelude.{◌≡◌, ◌&&◌, ◌++◌, ◌∷◌, ◌≤◌, [], None, Some, IfErr, IfOk, IfSome, IsTrue, codes};
ghost use Rattle.script_text.specs.declared.fault.Fault.TheVariants.{Memory};
ghost use Rattle.script_text.specs.Grammar.{ReadsAs, Refuses};
ghost use Rattle.script_orders.specs.declared.orders.Answer.TheVariants.{CannotTell, Told, Found, TooMany};
ghost use Rattle.script_orders.specs.Found.{outcomes_in};
ghost use Rattle.script_orders.specs.Orders.{IsAnswerText, IsNeverText, IsSoughtText, NoneTells, coverage_line};
ghost use Rattle.script_orders.specs.Orders.{found_list};
ghost use Rattle.script_orders.specs.Seen.{seen};
ghost use Rattle.script_orders.specs.Tellings.{CanTell};

use crate::answers::{Reply, coverage_line, given_up};
use crate::coverage::{FoundOutcomes, is_complete};
use crate::lists::next_list;
use crate::orders::Answer;
use crate::outcomes::{Outcomes, outcome_text};
use crate::search::Search;
use crate::tellings::can_tell;
use crate::threads::has_line;
use indexmap::IndexMap;
use script_text::{Fault, Script, parse};
use std::alloc::{AllocError, Global};

/// A script, as it was written and as it reads, and a line that is to be found.
#[derive(Clone, Copy)]
struct Sought<'a> {
    bytes: &'a [u8],
    script: &'a Script,
    line: &'a [u8],
}

/// The turns by which a line is told, or `turns` where there are none.
fn found_list(alloc: Global, list: Vec<u8>) -> Result<Vec<u8>, AllocError>
    ensures { IfOk result (λ text. text.items ≡ found_list list.items) }
{
    if list.is_empty() {
        return Vec::from_slice(alloc, b"turns");
    }
    Ok(list)
}

/// The turns by which a line is told.
fn found(alloc: Global, list: Vec<u8>) -> Result<Reply, Fault>
    ensures answer { IfOk result (λ reply. reply.answer ≡ Found) }
    ensures text { IfOk result (λ reply. reply.text.items ≡ found_list list.items ++ 10 ∷ []) }
    ensures refused { IfErr result (λ fault. fault ≡ Memory) }
{
    let Ok(mut text) = found_list(alloc, list) else {
        return Err(Fault::Memory);
    };
    match text.push(b'\n') {
        Ok(()) => Ok(Reply {
            answer: Answer::Found,
            text,
        }),
        Err(_) => Err(Fault::Memory),
    }
}

/// That a line is told in no outcome, and whether none is missing.
fn never_text(alloc: Global, is_complete: bool) -> Result<Vec<u8>, AllocError>
    ensures { IfOk result (λ text. text.items ≡ codes "never\n" ++ coverage_line is_complete) }
{
    let mut text = Vec::from_slice(alloc, b"never\n")?;
    text.extend_from_slice(coverage_line(is_complete))?;
    Ok(text)
}

/// Whether none of these outcomes tells a line.
fn none_tells(outcomes: &Outcomes, line: &[u8]) -> bool
    ensures { IsTrue result → NoneTells (outcomes_in outcomes.now.found.entries) line.now }
{
    for index in 0..outcomes.found.len() {
        if let Some((text, _)) = outcomes.found.get_index(index) {
            if has_line(text.as_slice(), line) {
                return false;
            }
        }
    }
    true
}

fn both(is_one: bool, is_other: bool) -> bool
    ensures { result ≡ (is_one && is_other) }
{
    is_one && is_other
}

/// What is told where none of the outcomes that were found tells the line.
fn never(alloc: Global, sought: &Sought<'_>, outcomes: &Outcomes) -> Result<Reply, Fault>
    requires { ReadsAs sought.now.bytes.now sought.now.script.now }
    ensures answer { IfOk result (λ reply. reply.answer ≡ Told) }
    ensures text { IfOk result
        (λ reply. IsNeverText sought.now.bytes.now sought.now.line.now reply.text.items) }
    ensures refused { IfErr result (λ fault. Refuses fault sought.now.bytes.now) }
{
    let found = FoundOutcomes {
        bytes: sought.bytes,
        script: sought.script,
        outcomes,
    };
    let is_all = is_complete(alloc, &found)?;
    let is_none = none_tells(outcomes, sought.line);
    match never_text(alloc, both(is_all, is_none)) {
        Ok(text) => Ok(Reply {
            answer: Answer::Told,
            text,
        }),
        Err(_) => Err(Fault::Memory),
    }
}

/// A run with these turns, where it tells the line; else its outcome is kept.
fn try_list(
    alloc: Global,
    sought: &Sought<'_>,
    outcomes: &mut Outcomes,
    list: Vec<u8>,
) -> Result<Option<Reply>, Fault>
    ensures is { IfOk result (λ tried. IfSome tried
        (λ reply. IsSoughtText sought.now.line.now reply.answer sought.now.bytes.now reply.text.items)) }
    ensures refused { IfErr result (λ fault. Refuses fault sought.now.bytes.now) }
{
    let told = outcome_text(alloc, sought.bytes, list.as_slice())?;
    let Some(text) = told else {
        return Ok(None);
    };
    if has_line(text.as_slice(), sought.line) {
        let reply = found(alloc, list)?;
        return Ok(Some(reply));
    }
    match outcomes.add(text, list) {
        Ok(()) => Ok(None),
        Err(_) => Err(Fault::Memory),
    }
}

/// What comes of the next list of turns: an answer, or none where it doesn't tell the line.
fn try_next(
    alloc: Global,
    sought: &Sought<'_>,
    outcomes: &mut Outcomes,
    search: &mut Search,
) -> Result<Option<Reply>, Fault>
    requires reads { ReadsAs sought.now.bytes.now sought.now.script.now }
    requires within { seen search.old.states ≤ search.old.most }
    ensures within { IfOk result (λ tried. tried ≡ None → seen search.new.states ≤ search.new.most) }
    ensures is { IfOk result (λ tried. IfSome tried
        (λ reply. IsSoughtText sought.now.line.now reply.answer sought.now.bytes.now reply.text.items)) }
    ensures refused { IfErr result (λ fault. Refuses fault sought.now.bytes.now) }
{
    match next_list(alloc, search) {
        Ok(Some(list)) => try_list(alloc, sought, outcomes, list),
        Ok(None) => {
            let reply = never(alloc, sought, outcomes)?;
            Ok(Some(reply))
        }
        Err(why) => {
            let reply = given_up(alloc, why)?;
            Ok(Some(reply))
        }
    }
}

/// The least turns by which the line is told, of those that a search finds.
fn turns_found(
    alloc: Global,
    sought: &Sought<'_>,
    most: u32,
    search: &mut Search,
) -> Result<Reply, Fault>
    requires reads { ReadsAs sought.now.bytes.now sought.now.script.now }
    requires within { seen search.old.states ≤ search.old.most }
    ensures is { IfOk result (λ reply.
        IsSoughtText sought.now.line.now reply.answer sought.now.bytes.now reply.text.items) }
    ensures refused { IfErr result (λ fault. Refuses fault sought.now.bytes.now) }
{
    let mut outcomes = Outcomes {
        found: IndexMap::new(alloc),
    };
    if let Some(reply) = try_list(alloc, sought, &mut outcomes, Vec::new(alloc))? {
        return Ok(reply);
    }
    for _ in 0..most {
        if let Some(reply) = try_next(alloc, sought, &mut outcomes, search)? {
            return Ok(reply);
        }
    }
    never(alloc, sought, &outcomes)
}

/// That the script can't tell the line.
fn cannot_tell(alloc: Global) -> Reply
    ensures answer { result.answer ≡ CannotTell }
    ensures text { result.text.items ≡ [] }
{
    Reply {
        answer: Answer::CannotTell,
        text: Vec::new(alloc),
    }
}

/// Whether the script can tell the line.
fn is_tellable(alloc: Global, sought: &Sought<'_>) -> Result<bool, Fault>
    requires { ReadsAs sought.now.bytes.now sought.now.script.now }
    ensures can { IfOk result (λ can. CanTell sought.now.bytes.now sought.now.line.now can) }
    ensures memory { IfErr result (λ fault. fault ≡ Memory) }
{
    can_tell(alloc, sought.script, sought.line)
}

/// The same, where the script can tell the line.
fn turns_sought(
    alloc: Global,
    sought: &Sought<'_>,
    most: u32,
    search: &mut Search,
) -> Result<Reply, Fault>
    requires reads { ReadsAs sought.now.bytes.now sought.now.script.now }
    requires within { seen search.old.states ≤ search.old.most }
    ensures is { IfOk result (λ reply.
        IsAnswerText (Some sought.now.line.now) reply.answer sought.now.bytes.now reply.text.items) }
    ensures refused { IfErr result (λ fault. Refuses fault sought.now.bytes.now) }
{
    let can = is_tellable(alloc, sought)?;
    if !can {
        return Ok(cannot_tell(alloc));
    }
    turns_found(alloc, sought, most, search)
}

/// The least turns by which a line is told.
pub(crate) fn turns_to(alloc: Global, script: &[u8], line: &[u8], most: u32) -> Result<Reply, Fault>
    ensures is { IfOk result (λ reply. IsAnswerText (Some line.now) reply.answer script.now reply.text.items) }
    ensures none { IfOk result (λ reply. most ≡ 0 → reply.answer ≡ TooMany) }
    ensures refused { IfErr result (λ fault. Refuses fault script.now) }
{
    let parsed = parse(alloc, script)?;
    let sought = Sought {
        bytes: script,
        script: &parsed,
        line,
    };
    match Search::new(alloc, &parsed, most) {
        Ok(mut search) => turns_sought(alloc, &sought, most, &mut search),
        Err(why) => given_up(alloc, why),
    }
}
