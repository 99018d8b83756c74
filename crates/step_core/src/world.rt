//! The machine: a table and the threads over it.
ghost use Rattle.std.specs.Prelude.{◌≡◌, ◌≢◌, ◌<◌, ◌≤◌, ◌-◌, length, true, false};
ghost use Rattle.step_core.specs.WorldStates.{AllHold, IsAsLarge, TakesStep, pending_call_of, is_event};
ghost use Rattle.step_core.specs.Following.{Performs};
ghost use Rattle.step_table.specs.GhostStates.{TableInvariant};
ghost use Rattle.step_core.specs.Turning.{HasBegun, Plays, HasRested, has_rest, is_acting, is_clearing, is_ending};
ghost use Rattle.step_core.specs.Turning.{is_refilling, is_returning, turned_by};
ghost use Rattle.step_core.specs.Worlds.{Advances, GoesTo, Steps, TakesWholeTurn};

use crate::told::{ends, makes};
use std::marker::Model;
use step_table::memory::table::Table;
use step_threads::pending_call::PendingCall;
use step_threads::said::{Stepped, Turned};
use step_threads::thread::Thread;

/// Threads over one table. Thread d has what desk d has.
#[derive(Drop)]
pub struct World {
    pub(crate) table: Table,
    pub(crate) threads: Vec<Thread>,
    /// Objects that were made.
    pub(crate) made: u32,
    /// Objects whose last owner left.
    pub(crate) ended: u32,
}

impl Model for World {
    ghost use Rattle.std.specs.Prelude.{map};
    ghost use Rattle.step_core.specs.Told.{TotalsAreTold, world_state};
    ghost use Rattle.step_core.specs.WorldStates.{WorldState};
    ghost use Rattle.step_core.specs.Worlds.{AllFit, thread_pending, thread_frame};

    ghost Value = { WorldState };

    ghost view = { λ w. record {
      ghost_state = w.table;
      frame_views = map thread_frame w.threads.items;
      pending_calls = map thread_pending w.threads.items;
    } };

    ghost invariant = { λ w. AllFit w.table w.threads.items
        × TotalsAreTold (world_state w.table w.threads.items) w.made w.ended };
}

impl World {
    /// One step of an actor: one atomic step on one word, or one act that touches none. It answers `Event` just where
    /// the step is an event, which is then one more in the history, with what that says; no other step changes the
    /// history. It answers `Done` just at the actor's end, and then nothing changes. The step is the actor's next act,
    /// or on the way of it: by what the act was replied follows what the actor has then, says, and does next. After it
    /// what each actor's slots hold is just what the history says. It would answer `Waited` just where all 256 funds of
    /// a cell's value were taken, which so few actors never leave: each that finds half of them taken puts them back.
    /// Condition: the actor is one of the world's, from 1 (own).
    pub fn step(&mut self, actor: u8) -> Stepped
        requires some { 0 < actor }
        requires within { actor ≤ length self.old.frame_views }
        ensures steps { Steps (actor - 1) self.old result self.new }
        ensures takes { TakesStep (actor - 1) self.old result self.new }
        ensures performs { Performs (actor - 1) self.old result self.new }
        ensures never { result ≢ Stepped.Waited }
        ensures kept { TableInvariant self.new.ghost_state }
        ensures actors { length self.new.frame_views ≡ length self.old.frame_views }
        ensures extent { IsAsLarge self.old self.new }
    {
        self.advance(usize::from(actor) - 1)
    }

    /// One act of an actor, with all of its steps: first the rest of what its last step began, and at the end what its
    /// last owner's leave, its swap or its load began, so that no load is left under way, no funds are out, and an
    /// object's end has come to its last step, or to a member's pointer, whose leave is the actor's next act. It
    /// answers what the act says, and `Done` just at the actor's end, but never `Waited`. A count leaves out at most
    /// the loads that other actors have under way. Condition: the actor is one of the world's, from 1 (own).
    pub fn turn(&mut self, actor: u8) -> Turned
        requires some { 0 < actor }
        requires within { actor ≤ length self.old.frame_views }
        ensures turns { TakesWholeTurn (actor - 1) self.old result self.new }
        ensures steps { GoesTo (actor - 1) self.old self.new }
        ensures kept { TableInvariant self.new.ghost_state }
        ensures hands { AllHold self.new }
        ensures actors { length self.new.frame_views ≡ length self.old.frame_views }
        ensures extent { IsAsLarge self.old self.new }
    {
        let number = usize::from(actor) - 1;
        self.rest(number);
        let turned = self.act(number);
        self.rest(number);
        self.table.assert_invariant();
        turned
    }

    /// The rest of an act, where it is under way: funds are turned, put back and given back, and objects end.
    fn rest(&mut self, number: usize)
        requires { number < length self.old.frame_views }
        ensures rests { HasRested number self.old self.new }
        ensures goes { GoesTo number self.old self.new }
        ensures actors { length self.new.frame_views ≡ length self.old.frame_views }
    {
        while self.has_rest(number) {
            self.advance(number);
        }
    }

    /// The steps through the next act: one, and the rest of it where that only begins it.
    fn act(&mut self, number: usize) -> Turned
        requires within { number < length self.old.frame_views }
        requires rested { has_rest self.old number ≡ false }
        ensures plays { Plays number self.old result self.new }
        ensures goes { GoesTo number self.old self.new }
        ensures actors { length self.new.frame_views ≡ length self.old.frame_views }
    {
        if self.is_acting(number) {
            return self.go_on(number);
        }
        let stepped = self.advance(number);
        if self.is_acting(number) {
            return self.go_on(number);
        }
        turned(stepped)
    }

    /// The rest of an act that is under way, through its event. Nobody steps between, so what is looked at again is as
    /// it was left, and the act is made.
    fn go_on(&mut self, number: usize) -> Turned
        requires within { number < length self.old.frame_views }
        requires acting { is_acting (pending_call_of self.old number) ≡ true }
        ensures plays { Plays number self.old result self.new }
        ensures goes { GoesTo number self.old self.new }
        ensures actors { length self.new.frame_views ≡ length self.old.frame_views }
    {
        loop {
            let stepped = self.advance(number);
            if is_event(stepped) {
                return turned(stepped);
            }
        }
    }

    /// Whether a thread has a rest of an act that goes on by itself.
    fn has_rest(&self, number: usize) -> bool
        requires { number < length self.now.frame_views }
        ensures { result ≡ has_rest self.now number }
    {
        self.is_returning(number)
            || self.is_refilling(number)
            || self.is_clearing(number)
            || self.is_ending(number)
    }

    /// Whether a thread ends an object, and nothing came out of a member that is in hand.
    fn is_ending(&self, number: usize) -> bool
        requires { number < length self.now.frame_views }
        ensures { result ≡ is_ending self.now number }
    {
        let frame = &self.threads[number].frame;
        frame.endings.first().is_some() && !frame.registers.is_full(frame.registers.hand())
    }

    /// Whether a thread has an act under way.
    fn is_acting(&self, number: usize) -> bool
        requires { number < length self.now.frame_views }
        ensures { result ≡ is_acting (pending_call_of self.now number) }
    {
        match self.threads[number].pending_call {
            PendingCall::Rest
            | PendingCall::Refill { .. }
            | PendingCall::Returning { .. }
            | PendingCall::Clearing => false,
            PendingCall::Making { .. }
            | PendingCall::Locking { .. }
            | PendingCall::Giving { .. }
            | PendingCall::Brought
            | PendingCall::Saw { .. }
            | PendingCall::Matched { .. } => true,
        }
    }

    /// Whether a thread has a fund of a cell to turn, or funds to put back.
    fn is_refilling(&self, number: usize) -> bool
        requires { number < length self.now.frame_views }
        ensures { result ≡ is_refilling (pending_call_of self.now number) }
    {
        matches!(
            self.threads[number].pending_call,
            PendingCall::Refill { .. }
        )
    }

    /// Whether a thread has funds to give back.
    fn is_returning(&self, number: usize) -> bool
        requires { number < length self.now.frame_views }
        ensures { result ≡ is_returning (pending_call_of self.now number) }
    {
        matches!(
            self.threads[number].pending_call,
            PendingCall::Returning { .. }
        )
    }

    /// Whether a thread is to take out what a member of an ending object holds.
    fn is_clearing(&self, number: usize) -> bool
        requires { number < length self.now.frame_views }
        ensures { result ≡ is_clearing (pending_call_of self.now number) }
    {
        matches!(self.threads[number].pending_call, PendingCall::Clearing)
    }

    /// The next step of a thread.
    pub(crate) fn advance(&mut self, number: usize) -> Stepped
        requires { number < length self.old.frame_views }
        ensures was { HasBegun number self.old }
        ensures advances { Advances number self.old result self.new }
        ensures steps { Steps number self.old result self.new }
        ensures never { result ≢ Stepped.Waited }
        ensures kept { TableInvariant self.new.ghost_state }
        ensures actors { length self.new.frame_views ≡ length self.old.frame_views }
    {
        let thread = &mut self.threads[number];
        let pending_call = thread.pending_call;
        self.table.assert_invariant();
        let stepped = thread.step(number, &mut self.table);
        self.table.assert_invariant();
        self.made += makes(pending_call, stepped);
        self.ended += ends(stepped);
        stepped
    }
}

/// Whether a step was an event.
fn is_event(stepped: Stepped) -> bool
    ensures { result ≡ is_event stepped }
{
    matches!(stepped, Stepped::Event(_))
}

/// The turn whose act the step was, or ended.
fn turned(stepped: Stepped) -> Turned
    ensures { result ≡ turned_by stepped }
{
    match stepped {
        Stepped::Event(said) | Stepped::Quiet(said) => Turned::Acted(said),
        Stepped::Waited => Turned::Waited,
        Stepped::Done => Turned::Done,
    }
}
