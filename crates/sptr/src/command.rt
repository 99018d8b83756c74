//! What a command line asks for, as `clap` reads it.

ghost use Rattle.std.specs.Prelude.{◌≡◌, ◌&&◌, IfOk, List, [], codes, is_some, map, nat_lt};
ghost use Rattle.std.specs.Str.Parse.{without_leading_plus};
ghost use Rattle.clap.specs.Words.{FailsBy, Text, count_of, fault_of, first_of, found_of, rows_of};
ghost use Rattle.clap.specs.Words.{subcommand_of, subcommand_rows_of};
ghost use Rattle.sptr.specs.CommandLine.{AsksFor, IsAskedBy, faults_of, finds_on_page, program};
ghost use Rattle.sptr.specs.CommandLine.{turns_given, turns_in};
ghost use Rattle.sptr.specs.CommandLine.{list_or_line, names_list, names_text, word_in};
ghost use Rattle.sptr.specs.Parts.{most_named, number_given, number_in, part_named};

use crate::commands::{command, conflict};
use clap::{ArgMatches, Error};
use script_orders::MOST_STATES;
use script_picture::Part;
use std::alloc::Global;
use std::convert::AsStr;

/// What a command line asks for.
#[derive(Clone, Copy)]
pub(crate) enum Asked {
    /// How many threads and statements a script has.
    Check,
    /// The script in version 2.
    Convert,
    /// The lines of a script's run, with a list of turns.
    Step,
    /// The same by single atomic steps.
    Fine,
    /// The lines of a script's run on real workers, thread by thread.
    Run,
    /// What is left at the end of the run, and who holds it, as text or drawn.
    Left {
        draws: bool,
    },
    /// The picture of a part of the run, by acts or by single steps, or a page that shows it act by
    /// act; no part where its numbers are faulty.
    Draw {
        is_fine: bool,
        is_page: bool,
        part: Option<Part>,
    },
    /// What leaks of a graph of owners, as text or drawn.
    Owners {
        draws: bool,
    },
    /// The outcomes of all orders of a script, or the turns by which a line is told, with so many
    /// states at most; no such number where that is faulty.
    Orders {
        finds: bool,
        most: Option<u32>,
    },
    /// A page of the outcomes of all orders of a script, with so many states at most.
    OrdersPage {
        most: Option<u32>,
    },
}

/// What a command line asks for, with its list of turns, or the line that is to be found, which is
/// empty where it gives none; and the files that it names: one of the script or the graph, and one
/// of the list.
#[derive(Clone, Copy)]
pub(crate) struct Line<'a> {
    pub asked: Asked,
    pub turns: &'a [u8],
    pub text_file: Option<&'a str>,
    pub list_file: Option<&'a str>,
}

fn matches_of<'a, S: AsStr>(alloc: Global, words: &'a [S]) -> Result<ArgMatches<'a>, Error>
    ensures matches { IfOk result
        (λ m. subcommand_rows_of m ≡ subcommand_of program (map S.text words.entry.now)) }
    ensures kinds { FailsBy (fault_of program (map S.text words.entry.now)) result }
{
    let command = command(alloc)?;
    command.try_get_matches_from(words)
}

/// The list that a run was given, or the line that is to be found; empty where none was.
fn turns_of<'a>(given: &ArgMatches<'a>) -> &'a [u8]
    ensures { let rows = rows_of (found_of given.now) in
        result.now ≡ list_or_line (first_of (codes "turns") rows) (first_of (codes "find") rows) }
{
    match given.get_str("turns") {
        Some(list) => list.as_bytes(),
        None => given.get_str("find").unwrap_or("").as_bytes(),
    }
}

/// Whether a flag was given.
fn has_flag(given: &ArgMatches<'_>, id: &str) -> bool
    ensures { result ≡ nat_lt 0 (count_of id.now (rows_of (found_of given.now))) }
{
    given.get_count(id) > 0
}

/// The number from 1 that a word is.
fn number_of(word: &str) -> Option<u32>
    ensures { result ≡ number_in (without_leading_plus word.now) }
{
    match word.parse::<u32>() {
        Ok(number) => { if number > 0 { Some(number) } else { None } }
        Err(_) => None,
    }
}

/// The number that was given for this, or another where none was.
fn number_or(given: &ArgMatches<'_>, id: &str, other: u32) -> Option<u32>
    ensures { result ≡ number_given other (first_of id.now (rows_of (found_of given.now))) }
{
    match given.get_str(id) {
        Some(word) => number_of(word),
        None => Some(other),
    }
}

/// The part that a picture was asked for.
fn part_of(given: &ArgMatches<'_>) -> Option<Part>
    ensures { let rows = rows_of (found_of given.now) in
        result ≡ part_named (first_of (codes "from") rows) (first_of (codes "to") rows) }
{
    let whole = Part::whole();
    let first = number_or(given, "from", whole.first)?;
    let last = number_or(given, "to", whole.last)?;
    if first <= last {
        Some(Part { first, last })
    } else {
        None
    }
}

/// How many states a search was asked to see at most.
fn most_of(given: &ArgMatches<'_>) -> Option<u32>
    ensures { result ≡ most_named (first_of (codes "most") (rows_of (found_of given.now))) }
{
    number_or(given, "most", MOST_STATES)
}

/// Whether a word was given for this, and which.
fn word_of<'a>(given: &ArgMatches<'a>, id: &str) -> Option<&'a str>
    ensures { is_some result ≡ is_some (first_of id.now (rows_of (found_of given.now))) }
{
    given.get_str(id)
}

/// What `orders` was given to do.
fn orders_asked(given: &ArgMatches<'_>) -> Asked
    ensures { IsAskedBy (codes "orders") (rows_of (found_of given.now)) result }
{
    let most = most_of(given);
    if has_flag(given, "page") {
        Asked::OrdersPage { most }
    } else {
        Asked::Orders {
            finds: word_of(given, "find").is_some(),
            most,
        }
    }
}

/// What the command of this name was given to do. Where it is none of the others, it is `check`.
fn asked_by_name(name: &str, given: &ArgMatches<'_>) -> Asked
    ensures { IsAskedBy name.now (rows_of (found_of given.now)) result }
{
    match name {
        "step" => Asked::Step,
        "fine" => Asked::Fine,
        "left" => Asked::Left {
            draws: has_flag(given, "dot"),
        },
        "draw" => Asked::Draw {
            is_fine: has_flag(given, "fine"),
            is_page: has_flag(given, "page"),
            part: part_of(given),
        },
        "owners" => Asked::Owners {
            draws: has_flag(given, "dot"),
        },
        "orders" => orders_asked(given),
        "convert" => Asked::Convert,
        "run" => Asked::Run,
        _ => Asked::Check,
    }
}

/// What the words' command was given to do.
fn line_by<'a>(matches: &ArgMatches<'a>) -> Line<'a>
    ensures asks { (words : List Text) → subcommand_rows_of matches.now ≡ subcommand_of program words
        → fault_of program words ≡ [] → AsksFor words result.asked }
    ensures turns { result.turns.now ≡ turns_in (subcommand_rows_of matches.now) }
    ensures text { is_some result.text_file
        ≡ is_some (word_in (codes "file") (subcommand_rows_of matches.now)) }
    ensures list { is_some result.list_file
        ≡ is_some (word_in (codes "turns-file") (subcommand_rows_of matches.now)) }
{
    match matches.subcommand() {
        Some((name, given)) => Line {
            asked: asked_by_name(name, given),
            turns: turns_of(given),
            text_file: word_of(given, "file"),
            list_file: word_of(given, "turns-file"),
        },
        None => Line {
            asked: Asked::Check,
            turns: b"",
            text_file: None,
            list_file: None,
        },
    }
}

/// Whether a command was given a line that is to be found, and is to write a page.
fn wants_both(given: &ArgMatches<'_>) -> bool
    ensures { let rows = rows_of (found_of given.now) in
        result ≡ (nat_lt 0 (count_of (codes "page") rows) && is_some (first_of (codes "find") rows)) }
{
    has_flag(given, "page") && word_of(given, "find").is_some()
}

/// Whether the words' command was.
fn has_conflict(matches: &ArgMatches<'_>) -> bool
    ensures { result ≡ finds_on_page (subcommand_rows_of matches.now) }
{
    match matches.subcommand() {
        Some((_, given)) => wants_both(given),
        None => false,
    }
}

/// What the words of a command line ask for.
pub(crate) fn line_of<'a, S: AsStr>(alloc: Global, words: &'a [S]) -> Result<Line<'a>, Error>
    ensures asks { IfOk result (λ line. AsksFor (map S.text words.entry.now) line.asked) }
    ensures turns { IfOk result
        (λ line. line.turns.now ≡ turns_given (map S.text words.entry.now)) }
    ensures text { IfOk result
        (λ line. is_some line.text_file ≡ names_text (map S.text words.entry.now)) }
    ensures list { IfOk result
        (λ line. is_some line.list_file ≡ names_list (map S.text words.entry.now)) }
    ensures kinds { FailsBy (faults_of (map S.text words.entry.now)) result }
{
    let matches = match matches_of(alloc, words) {
        Ok(matches) => matches,
        Err(error) => return Err(error),
    };
    if has_conflict(&matches) {
        return Err(conflict(alloc)?);
    }
    Ok(line_by(&matches))
}
