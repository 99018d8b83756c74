//! The teams that a leader starts.
ghost use Rattle.std.specs.Prelude.{◌≡◌, ◌+◌, ◌-◌, ◌<◌, ◌≤◌, ◌^◌, List, ◌++◌, length, min, vec_capacity};
ghost use Rattle.std.specs.Prelude.{false, true, IfErr, IfNone, IfSome, OnOk, Some};
ghost use Rattle.control_block.specs.Parting.{IsTooMuch};
ghost use Rattle.pointers.specs.Leading.{AreSet, HasStarted, IsAsBefore, LedAt, Stay, TeamWorks, WhyNoTeam};
ghost use Rattle.pointers.specs.Leading.{first_of, led_by};
ghost use Rattle.pointers.specs.Shares.{HasShares};
ghost use Rattle.pointers.specs.declared.program.Failed.{Failed};

use crate::fault::Fault;
use crate::fault::call::Call;
use crate::program::leader::{Leader, Manned};
use crate::program::leads::lead_alone;
use crate::program::part::{Part, cut};
use crate::program::staff::lend;
use crate::program::team::Team;
use crate::program::work::Post;
use crate::program::{Failed, Program};
use control_block::desk::Desk;
use control_block::domain::Domain;
use control_word::Refusal;
use std::alloc::Global;
use std::sync::Wait;
use std::thread::Threads;

/// The teams that a leader starts: the desk that gives them parts, how the last one was manned, and of all of them how
/// many workers worked, why one didn't, and the faults that their work ended with.
pub(crate) struct Teams<'l, V: Drop> {
    pub alloc: Global,
    pub domain: &'l Domain<V>,
    pub desk: Desk<V>,
    pub before: Option<Manned>,
    pub workers: usize,
    pub fewer: Option<Refusal>,
    pub failed: Vec<Failed, Global>,
}

impl<'l, V: Drop> Teams<'l, V> {
    /// Whether the desk has parts for the team.
    fn has_room(&self, team: &Team) -> bool
        ensures yes { result ≡ true → HasShares self.now.desk (team.now.pointers + 2) team.now.workers }
        ensures no { result ≡ false → HasShares self.now.desk (team.now.pointers + 2) team.now.workers → ⊥ }
        ensures few { result ≡ true → 0 < team.now.workers → team.now.pointers + 2 < 2 ^ 32 }
        ensures workers { result ≡ true → team.now.workers < 2 ^ 32 }
    {
        let own = u64::from(self.desk.held().max(1));
        let wanted = team.handles().saturating_add(own);
        let most = u64::from(self.desk.allowance()) + 1;
        wanted <= most
    }

    /// Notes how a team was manned.
    fn note(&mut self, manned: Manned)
        ensures before { self.new.before ≡ Some manned }
        ensures workers { self.new.workers ≡ min (self.old.workers + manned.workers) (2 ^ 64 - 1) }
        ensures fewer { self.new.fewer ≡ first_of self.old.fewer manned.fewer }
        ensures same { (self.new.domain.now ≡ self.old.domain.now) × (self.new.desk ≡ self.old.desk)
            × (self.new.failed ≡ self.old.failed) }
    {
        self.before = Some(manned);
        self.workers = self.workers.saturating_add(manned.workers);
        if self.fewer.is_none() {
            self.fewer = manned.fewer;
        }
    }
}

/// Faults are noted behind others, where there is room for them.
fn note_all(all: &mut Vec<Failed>, more: &[Failed])
    requires { length all.old.items + length more.now ≤ vec_capacity all.old }
    ensures { (all.new.items ≡ all.old.items ++ more.now) × (vec_capacity all.new ≡ vec_capacity all.old) }
{
    for failed in more {
        all.push_reserved(*failed);
    }
}

impl<'l, V: Drop + Send> Teams<'l, V> {
    /// A team works, lent parts of the desk. Where the desk has none for it, or memory is refused for its faults, it
    /// isn't started.
    pub(crate) fn start<R: Threads + Wait + Sync, P: Program<V, R> + Sync>(
        &mut self,
        rt: &R,
        team: Team,
        program: &P,
    ) -> Result<(), Fault>
        requires set { AreSet self.old }
        ensures started { OnOk result (HasStarted (P.answers program.now) team self.old self.new) }
        ensures refused { IfErr result (WhyNoTeam self.old.desk team) }
        ensures same { IfErr result (λ _. IsAsBefore self.old self.new) }
        ensures set { AreSet self.new }
        ensures stay { Stay self.old self.new }
    {
        if !self.has_room(&team) {
            return Err(Fault::Refused(Call::Team, Refusal::Limit));
        }
        match self.failed.reserve(team.workers.saturating_add(1)) {
            Ok(()) => {}
            Err(_) => return Err(Fault::Memory),
        }
        let manned = self.work(rt, team, program);
        self.note(manned);
        Ok(())
    }

    /// The team works, or none of it. The desk has parts for it, and there is room for its faults and one more.
    fn work<R: Threads + Wait + Sync, P: Program<V, R> + Sync>(
        &mut self,
        rt: &R,
        team: Team,
        program: &P,
    ) -> Manned
        requires set { AreSet self.old }
        requires fits { HasShares self.old.desk (team.pointers + 2) team.workers }
        requires few { 0 < team.workers → team.pointers + 2 < 2 ^ 32 }
        requires room { length self.old.failed.items + team.workers < vec_capacity self.old.failed }
        ensures works { (faults : List Failed) × TeamWorks (P.answers program.now) team self.old.desk result faults
            self.new.desk × (self.new.failed.items ≡ self.old.failed.items ++ faults) }
        ensures same { (self.new.workers ≡ self.old.workers) × (self.new.fewer ≡ self.old.fewer) }
        ensures set { AreSet self.new }
        ensures stay { Stay self.old self.new }
    {
        let first = Post {
            alloc: self.alloc,
            domain: self.domain,
            program,
            number: 0,
        };
        match lend(rt, &mut self.desk, first, team) {
            Some(failed) => {
                note_all(&mut self.failed, failed.as_slice());
                Manned {
                    workers: team.workers,
                    fewer: None,
                }
            }
            None => Manned {
                workers: 0,
                fewer: Some(Refusal::Memory),
            },
        }
    }

    /// A leader leads at a desk with so many handles, which is joined again. Its fault, if there is one. None where
    /// memory is refused for its desk.
    pub(crate) fn led_at<R: Threads + Wait + Sync, P: Leader<V, R> + Sync>(
        &mut self,
        rt: &R,
        handles: u32,
        leader: &mut P,
    ) -> Option<Option<Fault>>
        requires set { AreSet self.old }
        requires fits { IsTooMuch self.old.desk handles 0 → ⊥ }
        ensures led { IfSome result (LedAt P.leads P.answers handles (led_by leader.old self.old)
            (led_by leader.new self.new)) }
        ensures same { IfNone result (leader.new ≡ leader.old) }
        ensures set { AreSet self.new }
        ensures stay { Stay self.old self.new }
    {
        let Some(part) = cut(&mut self.desk, self.alloc, self.domain, handles) else {
            return None;
        };
        let (part, fault) = lead_alone(rt, self, part, leader);
        let Part { desk, pile } = part;
        pile.close();
        self.desk.join(self.domain, desk);
        Some(fault)
    }
}
