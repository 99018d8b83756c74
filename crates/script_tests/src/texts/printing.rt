//! Words and lines that texts are made of.
use crate::same::same;
use control_word::{Block, Counts};
use script_stepper::{put_block, put_lines, put_totals};
use script_text::{Cause, member_text, put_number, put_numbers};
use std::alloc::{AllocError, Global};

/// A number, the fields of an object and a member, as a line has them.
fn statement(alloc: Global) -> Result<String, AllocError> {
    let mut text = String::new(alloc);
    put_number(&mut text, "make a ", 65_535)?;
    put_numbers(&mut text, &[0, 1, u64::MAX, 7])?;
    Ok(text)
}

#[test]
fn numbers_stand_in_decimal_digits(rt: HostRuntime) {
    match statement(rt.alloc()) {
        Ok(text) => same(
            &rt,
            text.as_str(),
            "make a 65535 0 1 18446744073709551615 7",
        ),
        Err(why) => same(&rt, Some(why), None),
    }
    let members = [member_text(0), member_text(1), member_text(2)];
    same(&rt, members, ["first", "next", "up"]);
    same(&rt, Cause::UnfinishedLine.words(), "unfinished line");
}

/// The lines of a census: a block that isn't vacant, and the totals.
fn census(alloc: Global) -> Result<String, AllocError> {
    let mut text = String::new(alloc);
    put_lines(&mut text, 1, &[])?;
    put_block(
        &mut text,
        Block::numbered(3),
        Counts {
            owners: 2,
            weaks: 1,
        },
    )?;
    put_totals(&mut text, 4, 3)?;
    Ok(text)
}

#[test]
fn a_census_has_lines(rt: HostRuntime) {
    match census(rt.alloc()) {
        Ok(text) => same(
            &rt,
            text.as_str(),
            "block 3 owners 2 weaks 1\nmade 4 ended 3 left 1\n",
        ),
        Err(why) => same(&rt, Some(why), None),
    }
}
