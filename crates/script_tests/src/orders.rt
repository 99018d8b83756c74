//! What is told of small scripts.

use script_orders::{Answer, MOST_STATES, Query, orders_text};
use script_stepper::Output;
use std::alloc::Global;
use std::test::Fail;

/// A weak pointer is locked while its last owner leaves in another thread.
const LOCK: &[u8] = b"make a 1\nweak w a\nstore w0 w\nreset a\nthread\nload v w0\nlock b v\n";

/// What is told of an object that is made and counted.
const ONE_OUTCOME: &[u8] =
    b"outcome 1 turns\n1.2 count 1\n1.end end 7 0 0 0\nmade 1 ended 1 left 0\noutcomes 1 states 4\ncomplete\n";

/// The answer, and the text that tells it.
fn answered(
    alloc: Global,
    script: &[u8],
    line: Option<&[u8]>,
    most: u32,
) -> Result<(Answer, Vec<u8>), Fail> {
    let mut output = Output::new(Vec::new(alloc));
    let answer = orders_text(alloc, Query { script, line, most }, &mut output)?;
    Ok((answer, output.into_inner()))
}

#[test]
fn one_thread_has_one_outcome(rt: HostRuntime) -> Result<(), Fail> {
    let (answer, text) = answered(rt.alloc(), b"make a 7\ncount a\n", None, MOST_STATES)?;
    assert_eq!(rt; answer, Answer::Told);
    assert_eq!(rt; text.as_slice(), ONE_OUTCOME);
    Ok(())
}

#[test]
fn the_first_order_of_a_line_is_found(rt: HostRuntime) -> Result<(), Fail> {
    let line: &[u8] = b"2.2 lock owner";
    let (answer, text) = answered(rt.alloc(), LOCK, Some(line), MOST_STATES)?;
    assert_eq!(rt; answer, Answer::Found);
    assert_eq!(rt; text.as_slice(), b"1,1,1,1,2,2\n".as_slice());
    Ok(())
}

#[test]
fn a_line_of_no_order_is_never_told(rt: HostRuntime) -> Result<(), Fail> {
    let line: &[u8] = b"1.4 end 2 0 0 0";
    let (answer, text) = answered(rt.alloc(), LOCK, Some(line), MOST_STATES)?;
    assert_eq!(rt; answer, Answer::Told);
    assert_eq!(rt; text.as_slice(), b"never\ncomplete\n".as_slice());
    Ok(())
}

#[test]
fn a_line_of_no_statement_is_refused(rt: HostRuntime) -> Result<(), Fail> {
    let line: &[u8] = b"2.2 lock both";
    let (answer, text) = answered(rt.alloc(), LOCK, Some(line), MOST_STATES)?;
    assert_eq!(rt; answer, Answer::CannotTell);
    assert_eq!(rt; text.as_slice(), b"".as_slice());
    Ok(())
}

#[test]
fn of_too_many_states_nothing_is_told(rt: HostRuntime) -> Result<(), Fail> {
    let (answer, text) = answered(rt.alloc(), LOCK, None, 3)?;
    assert_eq!(rt; answer, Answer::TooMany);
    assert_eq!(rt; text.as_slice(), b"".as_slice());
    Ok(())
}
