//! The acts of statements, and the tasks of a thread.
ghost use Rattle.std.specs.Prelude.{◌≡◌, ◌<◌, ◌^◌, ◌++◌, ◌∷◌, length, replicate, IfOk, OnOk};
ghost use Rattle.step_threads.specs.Acts.{acts, numbered_tasks, tasks_from, with_tail};

use crate::programs::act::{Act, Question, ShelfAct, Task};
use crate::programs::call::{Call, CellName, Name};
use control_word::model::handle::Kind;
use std::alloc::{AllocError, Global};
use step_table::memory::field::Field;
use step_table::memory::form::Form;

/// The tasks of a thread: the acts of its calls, and then it leaves each name, the last declared first.
pub fn tasks(alloc: Global, calls: &[Call], names: u8) -> Result<Vec<Task>, AllocError>
    requires { length calls.now < 2 ^ 31 }
    ensures { IfOk result (λ v. v.items ≡ tasks_from 1 calls.now names) }
{
    let mut tasks = Vec::new(alloc);
    for (i, call) in calls.iter().enumerate() {
        add(&mut tasks, i as u32 + 1, *call)?;
    }
    let mut left = names;
    while left > 0 {
        left -= 1;
        tasks.push(Task {
            statement: 0,
            act: Act::Clear { name: left },
        })?;
    }
    Ok(tasks)
}

/// How a call goes on from its first act.
#[derive(Clone, Copy)]
pub enum Tail {
    /// It doesn't.
    Nothing,
    /// What was taken goes to a name.
    Named(Name),
    /// It goes into a cell, and what the cell held is dropped.
    Into(CellName),
    /// It goes into a cell that is equivalent to a name, and what the cell held is dropped; else the name gets what the
    /// cell holds.
    IntoAs {
        cell: CellName,
        name: Name,
        weak: bool,
    },
    /// It is made so often in all, and that is the whole of the call.
    Times(u16),
}

/// The tasks of a call.
fn add(tasks: &mut Vec<Task>, statement: u32, call: Call) -> Result<(), AllocError>
    ensures { OnOk result (tasks.new.items ≡ tasks.old.items ++ numbered_tasks statement (acts call)) }
{
    let (act, tail) = parts(call);
    if let Tail::Times(count) = tail {
        return repeat(tasks, statement, act, count);
    }
    tasks.push(Task { statement, act })?;
    match tail {
        Tail::Nothing | Tail::Times(_) => Ok(()),
        Tail::Named(name) => {
            let act = Act::Put { name: name.0 };
            tasks.push(Task { statement, act })?;
            Ok(())
        }
        Tail::Into(cell) => {
            let act = Act::Swap { cell };
            tasks.push(Task { statement, act })?;
            let act = Act::Drop;
            tasks.push(Task { statement, act })?;
            Ok(())
        }
        Tail::IntoAs { cell, name, weak } => {
            let name = name.0;
            let act = Act::Compare { name, cell, weak };
            tasks.push(Task { statement, act })?;
            let act = Act::Put { name };
            tasks.push(Task { statement, act })?;
            let act = Act::Drop;
            tasks.push(Task { statement, act })?;
            Ok(())
        }
    }
}

/// An act so often.
fn repeat(tasks: &mut Vec<Task>, statement: u32, act: Act, count: u16) -> Result<(), AllocError>
    ensures { OnOk result (tasks.new.items ≡ tasks.old.items ++ numbered_tasks statement (replicate count act)) }
{
    let mut left = count;
    while left > 0 {
        left -= 1;
        tasks.push(Task { statement, act })?;
    }
    Ok(())
}

/// The first act of a call, and how it goes on.
fn parts(call: Call) -> (Act, Tail)
    ensures { acts call ≡ with_tail result.0 result.1 }
{
    match call {
        Call::Make { target, fields } => (make(fields, false, false), Tail::Named(target)),
        Call::Copy { target, source } | Call::WeakCopy { target, source } => {
            (Act::Share { name: source.0 }, Tail::Named(target))
        }
        Call::Weak { target, source } => (Act::Downgrade { name: source.0 }, Tail::Named(target)),
        Call::Lock { target, source } => (lock(source, false), Tail::Named(target)),
        Call::Upgrade { target, source } => (lock(source, true), Tail::Named(target)),
        Call::Empty { target: name }
        | Call::Reset { name }
        | Call::WeakEmpty { target: name }
        | Call::WeakReset { name } => (Act::Leave { name: name.0 }, Tail::Nothing),
        Call::Count { name } | Call::WeakCount { name } => (
            Act::Count { name: name.0 },
            Tail::Nothing,
        ),
        Call::Expired { name } => (Act::Expired { name: name.0 }, Tail::Nothing),
        Call::MakeThis { target, fields } => (make(fields, true, false), Tail::Named(target)),
        Call::Null { target } => (make([0; 4], false, true), Tail::Named(target)),
        Call::This { target, source } => (from_this(source, Kind::Owner), Tail::Named(target)),
        Call::WeakThis { target, source } => (from_this(source, Kind::Weak), Tail::Named(target)),
        Call::Read { name } => (Act::Read { name: name.0 }, Tail::Nothing),
        Call::Move { target, source } => (Act::Move { name: source.0 }, Tail::Named(target)),
        Call::Shelve { count } => (on_shelf(ShelfAct::Shelve), Tail::Times(count)),
        Call::Unshelve { block } => (on_shelf(ShelfAct::Unshelve { block }), Tail::Nothing),
        Call::Alias {
            target,
            source,
            of,
            field,
        } => (alias(source, of, Some(field)), Tail::Named(target)),
        Call::AliasNull { target, source } => (alias(source, source, None), Tail::Named(target)),
        Call::Place { name } => (place(name), Tail::Nothing),
        Call::Same { first, second } => (same(first, second), Tail::Nothing),
        Call::Before { first, second } => (before(first, second), Tail::Nothing),
        Call::Store { cell, source } => (offer(source.0, cell), Tail::Into(cell)),
        Call::Exchange {
            cell,
            name: Name(name),
        } => (Act::Exchange { name, cell }, Tail::Nothing),
        Call::Load { target, cell } => (Act::Load { cell }, Tail::Named(target)),
        Call::Compare {
            cell,
            expected: name,
            desired: Name(source),
            weak,
        } => (offer(source, cell), Tail::IntoAs { cell, name, weak }),
        Call::Holds {
            cell,
            name: Name(name),
        } => (Act::Holds { name, cell }, Tail::Nothing),
    }
}

/// A copy of a name, for a cell.
fn offer(name: u8, cell: CellName) -> Act
    ensures { result ≡ Act.Offer name cell }
{
    Act::Offer { name, cell }
}

/// A make of an object with these fields and flags.
fn make(fields: [u64; 4], enabled: bool, null: bool) -> Act
    ensures { result ≡ Act.Make (record { fields = fields; enabled = enabled; null = null }) }
{
    Act::Make {
        form: Form {
            fields,
            enabled,
            null,
        },
    }
}

/// A pointer of this kind from the object of a name.
fn from_this(source: Name, kind: Kind) -> Act
    ensures { result ≡ Act.FromThis source.0 kind }
{
    Act::FromThis {
        name: source.0,
        kind,
    }
}

/// A block that goes to the shelf, or comes from it.
fn on_shelf(act: ShelfAct) -> Act
    ensures { result ≡ Act.OnShelf act }
{
    Act::OnShelf { act }
}

/// The question whether two names point at one place.
fn same(first: Name, second: Name) -> Act
    ensures { result ≡ Act.Ask (Question.Same first.0 second.0) }
{
    let question = Question::Same {
        first: first.0,
        second: second.0,
    };
    Act::Ask { question }
}

/// The question whether a name comes before another.
fn before(first: Name, second: Name) -> Act
    ensures { result ≡ Act.Ask (Question.Before first.0 second.0) }
{
    let question = Question::Before {
        first: first.0,
        second: second.0,
    };
    Act::Ask { question }
}

/// The question where a name points.
fn place(name: Name) -> Act
    ensures { result ≡ Act.Ask (Question.Place name.0) }
{
    let question = Question::Place { name: name.0 };
    Act::Ask { question }
}

/// An alias of a name, with a field of what another points into.
fn alias(source: Name, of: Name, field: Option<Field>) -> Act
    ensures { result ≡ Act.Alias source.0 of.0 field }
{
    Act::Alias {
        name: source.0,
        of: of.0,
        field,
    }
}

/// A lock of a name.
fn lock(source: Name, must: bool) -> Act
    ensures { result ≡ Act.Lock source.0 must }
{
    Act::Lock {
        name: source.0,
        must,
    }
}
