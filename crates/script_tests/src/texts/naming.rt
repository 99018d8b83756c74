//! Which names and cells a call may have.
use crate::calls::{alias, compare, exchange, load, member, store};
use crate::same::same;
use control_word::{Refusal, Shape};
use std::alloc::{AllocError, Global};
use std::process::Abort;
use step_core::{Actor, Call, CellName, Field, Kind, Name, Program, World};
use step_table::limits::{SCRIPT_OWNERS, SCRIPT_WEAKS};

const A: Name = Name(0);

const W: Name = Name(1);

const NOBODY: Name = Name(2);

const CELL: CellName = CellName::Shared(0);

const WEAK_CELL: CellName = CellName::Weak(0);

fn before(first: Name, second: Name) -> Call {
    Call::Before { first, second }
}

/// Why a world with a cell of each kind is refused whose actor has an owner `A`, a weak `W` and this call.
fn refusal(alloc: Global, call: Call) -> Result<Option<Refusal>, AllocError> {
    let shape = Shape {
        blocks: 1,
        owners: SCRIPT_OWNERS,
        weaks: SCRIPT_WEAKS,
        shared_cells: 1,
        weak_cells: 1,
        allowance: 40,
    };
    let actor = Actor {
        kinds: vec![in alloc; Kind::Owner, Kind::Weak]?,
        calls: vec![in alloc; call]?,
    };
    let program = Program {
        actors: vec![in alloc; actor]?,
    };
    match World::new(alloc, shape, program) {
        Ok(_) => Ok(None),
        Err(refused) => Ok(Some(refused.why)),
    }
}

/// Each call is taken or each is refused.
fn are(rt: &impl Abort, alloc: Global, calls: &[Call], taken: bool) {
    let wanted = if taken { None } else { Some(Refusal::Shape) };
    for call in calls {
        same(rt, refusal(alloc, *call), Ok(wanted));
    }
}

#[test]
fn a_call_has_names_of_its_kinds(rt: HostRuntime) {
    let taken = [alias(A, A, A, Field::Three), before(A, W), before(W, A)];
    are(&rt, rt.alloc(), &taken, true);
    let others = [
        alias(W, A, A, Field::Three),
        alias(A, W, A, Field::Three),
        alias(A, A, W, Field::Three),
        alias(A, A, NOBODY, Field::Three),
        Call::Count { name: W },
        Call::Same {
            first: A,
            second: W,
        },
        before(NOBODY, A),
        before(W, NOBODY),
        compare(CELL, A, W, true),
        compare(WEAK_CELL, A, W, true),
        // A name isn't exchanged with a member of its own object.
        exchange(member(A, 0), A),
    ];
    are(&rt, rt.alloc(), &others, false);
}

/// A store, a load and a compare.
fn on_cell(rt: &impl Abort, alloc: Global, cell: CellName, name: Name, taken: bool) {
    let calls = [
        store(cell, name),
        load(name, cell),
        compare(cell, name, name, false),
    ];
    are(rt, alloc, &calls, taken);
}

/// Cells that are no members, a name, and whether the cell holds it.
const CELLS: [(CellName, Name, bool); 7] = [
    (CELL, A, true),
    (WEAK_CELL, W, true),
    (CELL, W, false),
    (WEAK_CELL, A, false),
    (CELL, NOBODY, false),
    (CellName::Shared(1), A, false),
    (CellName::Weak(1), W, false),
];

/// The names and numbers of members, a name, and whether the member holds it.
const MEMBERS: [(Name, u8, Name, bool); 12] = [
    (A, 0, A, true),
    (A, 1, A, true),
    (A, 2, W, true),
    (A, 0, W, false),
    (A, 1, W, false),
    (A, 2, A, false),
    (A, 3, A, false),
    (A, 3, W, false),
    (W, 0, A, false),
    (W, 2, W, false),
    (NOBODY, 0, A, false),
    (NOBODY, 2, W, false),
];

#[test]
fn a_cell_is_there_and_holds_names_of_its_kind(rt: HostRuntime) {
    for (cell, name, taken) in CELLS {
        on_cell(&rt, rt.alloc(), cell, name, taken);
    }
    for (of, number, name, taken) in MEMBERS {
        on_cell(&rt, rt.alloc(), member(of, number), name, taken);
    }
}
