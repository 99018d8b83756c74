//! What lies in a desk's cell.
use crate::claim::Claims;
use crate::domain::Domain;
use control_block::desk::Desk;
use shared_handle::Pile;
use std::marker::Model;

mod cells;
pub(crate) mod compares;
mod ends;
mod leaves;
mod looks;
mod makes;
mod opening;
pub(crate) mod optional_compares;
mod passing;
mod passing_weak;
mod shares;
pub(crate) mod shelf;
mod visits;
mod weak_cells;
mod weak_compares;
mod weaks;

/// What lies in a desk's cell: the domain's desk, what is left to end with it, and what is known of its handles.
pub(crate) struct Context<D: Domain> {
    desk: Desk<D::Value>,
    pile: Pile<D::Value>,
    claims: Claims<D>,
}

impl<D: Domain> Model for Context<D> {
    ghost use Rattle.pointers.specs.Whole.{ContextNow, IsWhole};
    ghost use Rattle.control_block.specs.contracts.handles.Shared as shared_handle;
    ghost use Rattle.control_block.specs.contracts.handles.Weak as weak_handle;
    ghost use Rattle.std.specs.Coded.{codes};

    ghost Value = { ContextNow D.Value };

    ghost coded = { Prim.hlevel (codes, shared_handle.the_row.coded, weak_handle.the_row.coded) };

    ghost view = { λ c. record { desk = c.desk; endings = c.pile.endings.items; claims = c.claims.entries } };

    ghost invariant = { λ c. IsWhole D.opened c.desk c.pile c.claims.entries };
}

impl<D: Domain> Drop for Context<D> {
    /// The desk is given up.
    fn drop(self) {
        let Self {
            desk,
            pile,
            claims: _,
        } = self;
        desk.give_up();
        pile.close();
    }
}
