//! The limits of scripts.
use crate::same::same;
use step_table::limits;

#[test]
fn limits_have_their_numbers(rt: HostRuntime) {
    let of_scripts = [
        limits::SCRIPT_BLOCKS,
        limits::SCRIPT_THREADS,
        limits::SCRIPT_NAMES,
        limits::SCRIPT_STATEMENTS,
        limits::SCRIPT_SHARED_CELLS,
        limits::SCRIPT_WEAK_CELLS,
        limits::SCRIPT_ALLOWANCE,
        limits::WORKER_ALLOWANCE,
        limits::MOST_ACTORS,
    ];
    let wanted = [4_095, 16, 32, 65_536, 128, 128, 1_048_576, 65_535, 64];
    same(&rt, (of_scripts, limits::NAME_BYTES), (wanted, 16));
}
