//! A worker's table: its desk, and slots for the handles of its thread.
use control_block::desk::Desk;
use control_block::domain::Domain;
use shared_handle::{Held, Pile};
use std::alloc::Global;
use std::marker::{Brand, Model, PhantomData};

pub(crate) mod cells;
pub(crate) mod closing;
pub(crate) mod ends;
mod handles;
pub(crate) mod looks;
pub(crate) mod opening;
pub(crate) mod parting;
pub(crate) mod program;
pub(crate) mod slots;
pub(crate) mod staff;

/// The domain of a table, by its type: tables of one type are of one domain.
pub(crate) trait Home {
    ghost use Rattle.control_block.specs.Desks.{DomainNow};

    ghost domain: { DomainNow };
}

impl Home for Brand {
    ghost use Rattle.script_runner.specs.Tables.{no_domain};

    ghost domain = { no_domain };
}

/// A thread's part of a domain, with numbered slots for its handles. All memory that it needs it has from the start.
pub(crate) struct WorkerTable<'d, V: Drop, H: Home> {
    pub domain: &'d Domain<V>,
    pub home: PhantomData<H>,
    pub desk: Desk<V>,
    pub slots: Vec<Option<Held>, Global>,
    pub pile: Pile<V>,
}

impl<'d, V: Drop, H: Home> Model for WorkerTable<'d, V, H> {
    ghost use Rattle.script_runner.specs.Tables.{IsWhole, TableNow, on_pile};
    ghost use Rattle.control_block.specs.contracts.handles.Shared as shared_handle;
    ghost use Rattle.control_block.specs.contracts.handles.Weak as weak_handle;
    ghost use Rattle.std.specs.Coded.{codes};

    ghost Value = { TableNow V };

    ghost coded = { Prim.hlevel (codes, shared_handle.the_row.coded, weak_handle.the_row.coded) };

    ghost view = { λ t. record { desk = t.desk; slots = t.slots.items; endings = on_pile t.pile } };

    ghost invariant = { λ t. IsWhole H.domain t.domain.now t.desk t.slots.items t.pile };
}
