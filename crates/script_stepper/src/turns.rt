//! Lists of turns: numbers of threads, with single commas between them (own).
ghost use Rattle.std.specs.Prelude.{◌≡◌, ◌∷◌, ◌++◌, ◌<◌, ◌≤◌, [], length, position};
ghost use Rattle.std.specs.Prelude.{MatchOption, OnOk, IfErr};
ghost use Rattle.std.specs.List.{slice_split, list_all};
ghost use Rattle.script_stepper.specs.TurnLists.{is_comma, turn_at, list_at, AnswersTurns};
ghost use Rattle.script_text.specs.Words.{is_digit};

use script_text::Fault;
use std::alloc::{AllocError, Global};
use std::str;

fn is_all_digits(word: &[u8]) -> bool
    ensures { result ≡ list_all is_digit word.now }
{
    word.iter().all(|b| matches!(*b, b'0'..=b'9'))
}

/// The thread that a number names.
fn turn_of(word: &[u8], threads: u8) -> Option<u8>
    ensures { result ≡ turn_at threads word.now }
{
    if word.is_empty() || word[0] == b'0' || !is_all_digits(word) {
        return None;
    }
    let Ok(text) = str::from_utf8(word) else {
        return None;
    };
    match text.parse::<u8>() {
        Ok(turn) => { if turn <= threads { Some(turn) } else { None } }
        Err(_) => None,
    }
}

fn comma_in(text: &[u8]) -> Option<usize>
    ensures { result ≡ position is_comma text.now }
{
    text.iter().position(|b| *b == b',')
}

/// The first number, and what follows its comma.
fn split_comma(text: &[u8]) -> Option<(&[u8], &[u8])>
    ensures split { MatchOption result
        (slice_split is_comma text.now ≡ text.now ∷ [])
        (λ parts. slice_split is_comma text.now ≡ parts.0.now ∷ slice_split is_comma parts.1.now) }
    ensures shorter { MatchOption result (0 ≤ length text.now) (λ parts. length parts.1.now < length text.now) }
{
    let end = comma_in(text)?;
    Some((&text[..end], &text[end + 1..]))
}

/// The turns that a list names, each from 1 to the number of threads, in decimal without leading zeros; no bytes are no
/// turns. Refused with the position, from 1, of the first number that is none, or where a growth was refused.
pub fn turns_of(alloc: Global, text: &[u8], threads: u8) -> Result<Vec<u8>, Fault>
    ensures { AnswersTurns result (list_at threads text.now) }
{
    let mut turns = Vec::new(alloc);
    if text.is_empty() {
        return Ok(turns);
    }
    let mut rest = text;
    let mut position = 1;
    while let Some((word, after)) = split_comma(rest) {
        match turn_of(word, threads) {
            Some(turn) => put(&mut turns, turn)?,
            None => return Err(Fault::BadTurn { position }),
        }
        rest = after;
        position += 1;
    }
    match turn_of(rest, threads) {
        Some(turn) => put(&mut turns, turn)?,
        None => return Err(Fault::BadTurn { position }),
    }
    Ok(turns)
}

fn put(turns: &mut Vec<u8>, turn: u8) -> Result<(), Fault>
    ensures ok { OnOk result (turns.new.items ≡ turns.old.items ++ turn ∷ []) }
    ensures err { IfErr result (λ e. e ≡ Fault.Memory) }
{
    match turns.push(turn) {
        Ok(()) => Ok(()),
        Err(_) => Err(Fault::Memory),
    }
}
