//! The search through the states of all orders.

ghost use Rattle.std.specs.Prelude.{◌≡◌, ◌<◌, ◌≤◌, IfErr, IfOk, is_some};
ghost use Rattle.control_word.specs.declared.refusal.Refusal.TheVariants.{Limit, Memory};
ghost use Rattle.script_orders.specs.Seen.{GoesOn, SeesNone, one_where, seen};

use crate::machine::plan::Plan;
use crate::states::{Key, States};
use control_word::Refusal;
use script_text::Script;
use std::alloc::{AllocError, Global};

/// A state on the way from the first one, and the thread that is tried next in it.
#[derive(Clone, Copy)]
struct Stop {
    state: usize,
    next: u8,
}

/// A search through the states that a script's threads come to, in every order of their acts. Threads are tried in
/// number order, and each state is gone on from once. So the way to a state is the least list of turns that leads
/// there, and ends come in the order of their lists.
#[derive(Drop)]
pub(crate) struct Search {
    alloc: Global,
    plan: Plan,
    states: States,
    way: Vec<Stop>,
    most: u32,
}

/// The first state of a script's run, and the way that has come to it.
fn first_state(alloc: Global, plan: &Plan) -> Result<(States, Vec<Stop>), Refusal>
    ensures one { IfOk result (λ first. seen first.0 ≡ 1) }
{
    let mut states = States::new(alloc)?;
    let key = states.first(alloc, plan)?;
    let (state, _) = states.visit(key)?;
    let way = vec![in alloc; Stop { state, next: 0 }; 1]?;
    Ok((states, way))
}

impl Search {
    /// A search that sees so many states at most, of which there is one at least. Refused by `Limit` just where that is
    /// 0, and else by want of memory alone.
    pub fn new(alloc: Global, script: &Script, most: u32) -> Result<Search, Refusal>
        ensures some { IfOk result (λ search. 1 ≤ most) }
        ensures one { IfOk result (λ search. seen search.states ≡ 1) }
        ensures most { IfOk result (λ search. search.most ≡ most) }
        ensures limit { IfErr result (λ why. why ≡ Limit → most ≡ 0) }
    {
        if most == 0 {
            return Err(Refusal::Limit);
        }
        let Ok(plan) = Plan::of(alloc, script) else {
            return Err(Refusal::Memory);
        };
        match first_state(alloc, &plan) {
            Ok((states, way)) => Ok(Search {
                alloc,
                plan,
                states,
                way,
                most,
            }),
            Err(_) => Err(Refusal::Memory),
        }
    }

    /// How many states were seen.
    pub fn states(&self) -> usize
        ensures { result ≡ seen self.now.states }
    {
        self.states.count()
    }

    /// The turns on the way here, without those that come anyway by themselves: what is left of a run goes on in number
    /// order.
    fn turns(&self) -> Result<Vec<u8>, AllocError> {
        let mut turns = Vec::new(self.alloc);
        let mut kept = 0;
        let mut before = 0;
        for (length, stop) in self.way.iter().enumerate() {
            if stop.next < before {
                kept = length;
            }
            before = stop.next;
            turns.push(stop.next)?;
        }
        turns.truncate(kept);
        Ok(turns)
    }

    /// Goes back from the state that the way has come to.
    fn go_back(&mut self)
        ensures none { SeesNone self.old self.new }
    {
        let _ = self.way.pop();
    }

    /// Notes that a thread was tried in the state that the way has come to.
    fn pass(&mut self, thread: u8)
        ensures none { SeesNone self.old self.new }
    {
        if let Some(last) = self.way.last_mut() {
            last.next = thread.saturating_add(1);
        }
    }

    /// The state after the act of the thread that is tried next, if it has one.
    fn after(&mut self, stop: Stop) -> Result<Option<Key>, Refusal>
        ensures none { SeesNone self.old self.new }
        ensures memory { IfErr result (λ why. why ≡ Memory) }
    {
        match self
            .states
            .after(&self.plan, stop.state, usize::from(stop.next))
        {
            Ok(key) => Ok(key),
            Err(_) => Err(Refusal::Memory),
        }
    }

    /// Whether an end tells something new.
    fn is_new_end(&mut self, state: usize) -> Result<bool, Refusal>
        ensures none { SeesNone self.old self.new }
        ensures memory { IfErr result (λ why. why ≡ Memory) }
    {
        match self.states.is_new_end(self.alloc, state) {
            Ok(is_new) => Ok(is_new),
            Err(_) => Err(Refusal::Memory),
        }
    }

    /// Comes to a state that wasn't seen before. Answers whether that is an end that tells something new.
    fn come_to(&mut self, state: usize) -> Result<bool, Refusal>
        ensures none { SeesNone self.old self.new }
        ensures memory { IfErr result (λ why. why ≡ Memory) }
    {
        if self.states.is_end(&self.plan, state) {
            return self.is_new_end(state);
        }
        self.way.push(Stop { state, next: 0 })?;
        Ok(false)
    }

    /// Comes to a state, where it wasn't seen before. Refused by `Limit` only where more states were seen than there
    /// may be.
    fn visit(&mut self, key: Key) -> Result<bool, Refusal>
        requires within { seen self.old.states ≤ self.old.most }
        ensures sees { IfOk result (λ is_end. GoesOn (one_where is_end) self.old self.new) }
        ensures limit { IfErr result (λ why. why ≡ Limit → self.new.most < seen self.new.states) }
    {
        let (state, is_new) = self.states.visit(key)?;
        if !is_new {
            return Ok(false);
        }
        if self.states.count() > self.most as usize {
            return Err(Refusal::Limit);
        }
        self.come_to(state)
    }

    /// Goes on from the state that the way has come to, by the next thread that is tried there; or back, where there
    /// is none. Answers whether that is an end that tells something new.
    fn go_on(&mut self, stop: Stop) -> Result<bool, Refusal>
        requires within { seen self.old.states ≤ self.old.most }
        ensures sees { IfOk result (λ is_end. GoesOn (one_where is_end) self.old self.new) }
        ensures limit { IfErr result (λ why. why ≡ Limit → self.new.most < seen self.new.states) }
    {
        if usize::from(stop.next) >= self.plan.threads() {
            self.go_back();
            return Ok(false);
        }
        self.pass(stop.next);
        let after = self.after(stop)?;
        match after {
            Some(key) => self.visit(key),
            None => Ok(false),
        }
    }

    /// The least turns to the next end that tells something new; none where there is no further one.
    pub fn next_end(&mut self) -> Result<Option<Vec<u8>>, Refusal>
        requires within { seen self.old.states ≤ self.old.most }
        ensures sees { IfOk result (λ end. GoesOn (one_where (is_some end)) self.old self.new) }
        ensures limit { IfErr result (λ why. why ≡ Limit → self.new.most < seen self.new.states) }
    {
        let steps = u64::from(self.most).saturating_mul(u64::from(u8::MAX));
        for _ in 0..steps {
            let Some(stop) = self.way.last().copied() else {
                return Ok(None);
            };
            if self.go_on(stop)? {
                return Ok(Some(self.turns()?));
            }
        }
        Ok(None)
    }
}
