//! Lines, words and numbers of a text.
use crate::same::same;
use std::alloc::{AllocError, Global};
use text_lines::{
    after_word, first_word, is_clean, line_content, number_of, split_line, without_last_spaces,
    without_spaces, words_in,
};

/// A line ends with its line feed, and may have a carriage return before that, which is none of its content.
#[test]
fn a_text_falls_into_lines(rt: HostRuntime) {
    let cut = (b"a b".as_slice(), b"c\n".as_slice());
    same(&rt, split_line(b"a b\nc\n"), Some(cut));
    same(
        &rt,
        split_line(b"\n"),
        Some((b"".as_slice(), b"".as_slice())),
    );
    same(&rt, split_line(b"a b"), None);
    same(&rt, line_content(b"a\r"), b"a".as_slice());
    same(&rt, line_content(b"a\r\r"), b"a\r".as_slice());
    same(&rt, line_content(b"a"), b"a".as_slice());
}

/// Printable bytes and tabs may stand in a line.
#[test]
fn a_line_is_clean(rt: HostRuntime) {
    let told = [
        is_clean(b""),
        is_clean(b"a ~\t"),
        is_clean(b"a\x1f"),
        is_clean(b"\x7f"),
    ];
    same(&rt, told, [true, true, false, false]);
}

/// Words stand between spaces and tabs.
#[test]
fn a_line_falls_into_words(rt: HostRuntime) {
    same(&rt, without_spaces(b" \tab "), b"ab ".as_slice());
    same(&rt, without_last_spaces(b" ab \t"), b" ab".as_slice());
    same(&rt, without_last_spaces(b" \t"), b"".as_slice());
    same(&rt, first_word(b"ab\tcd"), b"ab".as_slice());
    same(&rt, first_word(b"ab"), b"ab".as_slice());
    same(&rt, after_word(b"ab \t cd e"), b"cd e".as_slice());
    same(&rt, after_word(b"ab"), b"".as_slice());
}

/// The words of a line.
fn words(alloc: Global, line: &[u8]) -> Result<[usize; 3], AllocError> {
    let words = words_in(alloc, line)?;
    let first = words.first().map_or(0, |it| it.len());
    let last = words.last().map_or(0, |it| it.len());
    Ok([words.len(), first, last])
}

#[test]
fn all_words_of_a_line_are_told(rt: HostRuntime) {
    same(&rt, words(rt.alloc(), b" a\t bcd ef "), Ok([3, 1, 2]));
    same(&rt, words(rt.alloc(), b" \t"), Ok([0, 0, 0]));
}

/// Digits alone are a number, below 2^64.
#[test]
fn a_word_is_a_number(rt: HostRuntime) {
    same(&rt, number_of(b"18446744073709551615"), Some(u64::MAX));
    same(&rt, number_of(b"18446744073709551616"), None);
    same(&rt, number_of(b"007"), Some(7));
    same(
        &rt,
        [number_of(b""), number_of(b"+1"), number_of(b"1 ")],
        [None; 3],
    );
}
