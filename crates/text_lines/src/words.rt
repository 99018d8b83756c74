//! The words of a line.

ghost use Rattle.std.specs.Prelude.{◌≡◌, IfOk, map, not, position};
ghost use Rattle.text_lines.specs.Words.{after_word, first_word, is_space, without_last_spaces};
ghost use Rattle.text_lines.specs.Words.{without_spaces, words_of};

use std::alloc::{AllocError, Global};

/// Whether a byte is a space or a tab.
fn is_space(b: u8) -> bool
    ensures { result ≡ is_space b }
{
    b == b' ' || b == b'\t'
}

/// The words of a line, all of them (own).
pub fn words_in(alloc: Global, line: &[u8]) -> Result<Vec<&[u8]>, AllocError>
    ensures { IfOk result (λ v. map (λ w. w.now) v.items ≡ words_of line.now) }
{
    line.split(|b| is_space(*b))
        .filter(|w| !w.is_empty())
        .collect(alloc)
}

/// Where the first byte is that is no space.
fn word_place(line: &[u8]) -> Option<usize>
    ensures { result ≡ position (λ b. not (is_space b)) line.now }
{
    line.iter().position(|b| !is_space(*b))
}

/// Where the first space is.
fn space_place(line: &[u8]) -> Option<usize>
    ensures { result ≡ position is_space line.now }
{
    line.iter().position(|b| is_space(*b))
}

/// A line without the spaces before its first word (own).
pub fn without_spaces(line: &[u8]) -> &[u8]
    ensures { result.now ≡ without_spaces line.now }
{
    match word_place(line) {
        Some(place) => &line[place..],
        None => &[],
    }
}

/// A line without the spaces after its last word (own).
pub fn without_last_spaces(line: &[u8]) -> &[u8]
    ensures { result.now ≡ without_last_spaces line.now }
{
    let mut left = line;
    while let [front @ .., last] = left {
        if !is_space(*last) {
            break;
        }
        left = front;
    }
    left
}

/// The first word of a line that begins with one (own).
pub fn first_word(line: &[u8]) -> &[u8]
    ensures { result.now ≡ first_word line.now }
{
    match space_place(line) {
        Some(place) => &line[..place],
        None => line,
    }
}

/// What follows it, from the next word on (own).
pub fn after_word(line: &[u8]) -> &[u8]
    ensures { result.now ≡ after_word line.now }
{
    match space_place(line) {
        Some(place) => without_spaces(&line[place..]),
        None => &[],
    }
}
