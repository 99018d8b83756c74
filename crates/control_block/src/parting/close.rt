//! A sole desk closes its domain.
ghost use Rattle.std.specs.Prelude.{◌≡◌, ℕ, ◌<◌, ◌↔◌, [], IfOk, IfErr, IsOk};
ghost use Rattle.control_block.specs.Census.{HasBlock, IsCensus, TellsAll};
ghost use Rattle.control_block.specs.Holders.{TellsCells, TellsHolders};
ghost use Rattle.control_block.specs.Desks.{Belongs, allowance_of, endings_of, state_of, stock_of};

use crate::census::Census;
use crate::desk::Desk;
use crate::domain::Domain;
use control_word::{Refusal, Refused};

/// A sole desk closes its domain (own). Else it is refused `NotSole`, and both come back. The census tells of each
/// block in which no object is ending: of all where none ends with the desk. It tells what each cell holds, and each
/// handle that counts is in a cell, or the desk had it still. The blocks of the desk's store go to the shelf first, by
/// a step each, so that all vacant blocks are there.
pub fn close<V: Drop>(
    domain: Domain<V>,
    mut desk: Desk<V>,
) -> Result<Census<V>, Refused<(Domain<V>, Desk<V>)>>
    requires domain { Belongs desk domain }
    ensures sole { IsOk result ↔ (allowance_of desk ≡ domain.shape.allowance) }
    ensures census { IfOk result (λ c. IsCensus (state_of desk) domain.shape.blocks c) }
    ensures cells { IfOk result (λ c. TellsCells (state_of desk) c) }
    ensures holders { IfOk result (λ c. (b : ℕ) → HasBlock c b → TellsHolders desk b c) }
    ensures whole { endings_of desk ≡ 0 → IfOk result (λ c. TellsAll (state_of desk) domain.shape.blocks c) }
    ensures refused { IfErr result (λ r. (r.why ≡ Refusal.NotSole) × (r.back ≡ (domain, desk))) }
{
    if !desk.is_sole(&domain) {
        return Err(Refused {
            why: Refusal::NotSole,
            back: (domain, desk),
        });
    }
    desk.assert_invariant();
    let stock = desk.stock();
    desk.shelve(&domain, stock);
    Ok(take_census(domain, desk))
}

/// The census of a domain whose vacant blocks are all on the shelf.
fn take_census<V: Drop>(domain: Domain<V>, desk: Desk<V>) -> Census<V>
    requires domain { Belongs desk domain }
    requires sole { allowance_of desk ≡ domain.shape.allowance }
    requires shelved { stock_of desk ≡ [] }
    ensures census { IsCensus (state_of desk) domain.shape.blocks result }
    ensures cells { TellsCells (state_of desk) result }
    ensures holders { (b : ℕ) → HasBlock result b → TellsHolders desk b result }
    ensures whole { endings_of desk ≡ 0 → TellsAll (state_of desk) domain.shape.blocks result }
{
    let Desk {
        seat,
        allowance: _,
        held: _,
        endings: _,
        store: _,
        shelf_word: _,
    } = desk;
    let Domain { table, shape } = domain;
    Census {
        closed: table.close_with(seat),
        shape,
    }
}
