//! How a run begins: its list of turns, and its world.
use crate::same::same;
use script_stepper::start_of;
use script_stepper::turns::turns_of;
use script_text::{Fault, parse};
use std::alloc::Global;
use std::test::Fail;

/// The turns that a list names in a script of two threads, or why there are none.
fn listed(alloc: Global, list: &[u8]) -> Result<Vec<u8>, Fault> {
    turns_of(alloc, list, 2)
}

/// Numbers of threads with single commas between them.
#[test]
fn a_list_names_turns(rt: HostRuntime) -> Result<(), Fail> {
    same(
        &rt,
        listed(rt.alloc(), b"2,1,2")?.as_slice(),
        [2, 1, 2].as_slice(),
    );
    same(&rt, listed(rt.alloc(), b"")?.len(), 0);
    let faulty: [&[u8]; 6] = [b"1,3", b"1,,2", b"1,", b"0", b"01", b"1, 2"];
    let positions = [2, 2, 2, 1, 1, 2];
    for (list, position) in faulty.into_iter().zip(positions) {
        same(
            &rt,
            listed(rt.alloc(), list).err(),
            Some(Fault::BadTurn { position }),
        );
    }
    Ok(())
}

/// Each of three threads has 1,365 blocks, and nothing was made.
#[test]
fn a_world_begins_with_its_threads(rt: HostRuntime) -> Result<(), Fail> {
    let script = parse(rt.alloc(), b"make a\nthread\nthread\nmake b\n")?;
    let start = start_of(rt.alloc(), &script)?;
    same(&rt, (start.threads, start.blocks), (3, 4_095));
    same(&rt, (start.world.made(), start.world.ended()), (0, 0));
    let two = parse(rt.alloc(), b"make a\nthread\n")?;
    let start = start_of(rt.alloc(), &two)?;
    same(&rt, (start.threads, start.blocks), (2, 4_094));
    Ok(())
}
