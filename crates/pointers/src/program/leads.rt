//! A leader at a desk of its own.
ghost use Rattle.std.specs.Prelude.{◌≡◌, IfErr, OnOk};
ghost use Rattle.control_block.specs.Desks.{Belongs};
ghost use Rattle.shared_handle.specs.Piles.{Bears};
ghost use Rattle.pointers.specs.Leading.{AreSet, Ends, Follows, IsAsBefore, IsLeft, IsOver};
ghost use Rattle.pointers.specs.Leading.{LeadsOn, Starts, Stay, led_by, led_with};

use crate::context::Context;
use crate::desk::Desk;
use crate::domain::Domain;
use crate::fault::Fault;
use crate::program::Program;
use crate::program::brand::{Branded, Opens};
use crate::program::leader::Leader;
use crate::program::part::Part;
use crate::program::team::Team;
use crate::program::teams::Teams;
use crate::shared::Shared;
use ghost_map::Blank;
use std::marker::Brand;
use std::sync::Wait;
use std::thread::Threads;

/// The leader is called once, and the team that it answers works; else there is no further team, and maybe a fault.
/// While a team works the desk's vacant blocks are on the shelf.
fn lead_once<
    't,
    V: Drop + Send,
    D: Domain<Value = V>,
    R: Threads + Wait + Sync,
    P: Leader<V, R> + Sync,
>(
    rt: &R,
    teams: &mut Teams<'_, V>,
    desk: &'t Desk<'t, D>,
    kept: &mut Vec<Shared<'t, D>>,
    leader: &mut P,
) -> Result<(), Option<Fault>>
    requires set { AreSet teams.old }
    ensures started { OnOk result
        (Starts P.leads P.answers (led_with leader.old kept.old.items teams.old)
        (led_with leader.new kept.new.items teams.new)) }
    ensures ended { IfErr result
        (Ends P.leads (led_with leader.old kept.old.items teams.old) leader.new kept.new.items) }
    ensures same { IfErr result (λ _. IsAsBefore teams.old teams.new) }
    ensures set { AreSet teams.new }
    ensures stay { Stay teams.old teams.new }
{
    let answer = leader.lead(rt, teams.before, desk, kept);
    let _ = desk.shelve();
    match answer {
        Ok(next) => follow(rt, teams, next, &*leader),
        Err(why) => Err(Some(why)),
    }
}

/// The team that the leader answered works, if there is one.
fn follow<V: Drop + Send, R: Threads + Wait + Sync, P: Program<V, R> + Sync>(
    rt: &R,
    teams: &mut Teams<'_, V>,
    next: Option<Team>,
    leader: &P,
) -> Result<(), Option<Fault>>
    requires set { AreSet teams.old }
    ensures started { OnOk result (Follows (P.answers leader.now) next teams.old teams.new) }
    ensures ended { IfErr result (IsOver teams.old.desk next) }
    ensures same { IfErr result (λ _. IsAsBefore teams.old teams.new) }
    ensures set { AreSet teams.new }
    ensures stay { Stay teams.old teams.new }
{
    let Some(team) = next else {
        return Err(None);
    };
    match teams.start(rt, team, leader) {
        Ok(()) => Ok(()),
        Err(why) => Err(Some(why)),
    }
}

/// The leader goes on, and the teams that it starts work, one after another, until it starts no more.
fn lead_on<
    't,
    V: Drop + Send,
    D: Domain<Value = V>,
    R: Threads + Wait + Sync,
    P: Leader<V, R> + Sync,
>(rt: &R, teams: &mut Teams<'_, V>, desk: &'t Desk<'t, D>, leader: &mut P) -> Option<Fault>
    requires set { AreSet teams.old }
    ensures led { LeadsOn P.leads P.answers (led_by leader.old teams.old) (led_by leader.new teams.new) result }
    ensures set { AreSet teams.new }
    ensures stay { Stay teams.old teams.new }
{
    let mut kept: Vec<Shared<'t, D>> = Vec::new(teams.alloc);
    for _ in rt.forever() {
        match lead_once(rt, teams, &*desk, &mut kept, leader) {
            Ok(()) => {}
            Err(fault) => return fault,
        }
    }
    unreachable!()
}

/// The same at a desk that comes out in the end.
fn lead_there<
    V: Drop + Send,
    D: Domain<Value = V>,
    R: Threads + Wait + Sync,
    P: Leader<V, R> + Sync,
>(rt: &R, teams: &mut Teams<'_, V>, desk: Desk<'_, D>, leader: &mut P) -> (Part<V>, Option<Fault>)
    requires set { AreSet teams.old }
    ensures led { LeadsOn P.leads P.answers (led_by leader.old teams.old) (led_by leader.new teams.new) result.1 }
    ensures left { IsLeft D.opened result.0.desk }
    ensures here { Belongs result.0.desk desk.entry.domain.now }
    ensures set { AreSet teams.new }
    ensures stay { Stay teams.old teams.new }
{
    let fault = lead_on(rt, teams, &desk, leader);
    (desk.into_part(rt), fault)
}

/// The same at a desk that `N` tells of.
fn lead_at<V: Drop + Send, N: Opens<V>, R: Threads + Wait + Sync, P: Leader<V, R> + Sync>(
    rt: &R,
    teams: &mut Teams<'_, V>,
    blank: Blank,
    part: Part<V>,
    leader: &mut P,
) -> (Part<V>, Option<Fault>)
    requires named { blank.name ≡ N.claims }
    requires opened { part.desk ≡ N.desk }
    requires bears { Bears teams.old.domain.now part.desk part.pile }
    requires set { AreSet teams.old }
    ensures led { LeadsOn P.leads P.answers (led_by leader.old teams.old) (led_by leader.new teams.new) result.1 }
    ensures left { IsLeft part.desk result.0.desk }
    ensures here { Belongs result.0.desk teams.old.domain.now }
    ensures set { AreSet teams.new }
    ensures stay { Stay teams.old teams.new }
{
    let context = Context::<Branded<V, N>>::new(teams.domain, blank, part);
    let desk = Desk::over(teams.domain, context, teams.alloc);
    lead_there(rt, teams, desk, leader)
}

/// The leader leads at a desk of its own, and all that it left comes back, with nothing left to end.
pub(crate) fn lead_alone<V: Drop + Send, R: Threads + Wait + Sync, P: Leader<V, R> + Sync>(
    rt: &R,
    teams: &mut Teams<'_, V>,
    part: Part<V>,
    leader: &mut P,
) -> (Part<V>, Option<Fault>)
    requires bears { Bears teams.old.domain.now part.desk part.pile }
    requires set { AreSet teams.old }
    ensures led { LeadsOn P.leads P.answers (led_by leader.old teams.old) (led_by leader.new teams.new) result.1 }
    ensures left { IsLeft part.desk result.0.desk }
    ensures here { Belongs result.0.desk teams.old.domain.now }
    ensures set { AreSet teams.new }
    ensures stay { Stay teams.old teams.new }
{
    lead_at::<V, Brand, R, P>(rt, teams, Blank::new(), part, leader)
}
