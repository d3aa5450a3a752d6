//! The machine: the run of some workers over a plan, event by event.

ghost use Rattle.std.specs.Prelude.{◌≡◌, ◌<◌, ◌≤◌, true, false, Some, IfOk, IfErr, IfSome, length, replicate};
ghost use Rattle.std.specs.Prelude.{slice_get};
ghost use Rattle.std.specs.List.{list_all, AllByRecursion};
ghost use Rattle.ghcn_fields.specs.Floor.{IsScore};
ghost use Rattle.rank_sched.specs.declared.event.Event.TheVariants as events;
ghost use Rattle.rank_sched.specs.declared.event.StepFault.TheVariants as faults;
ghost use Rattle.rank_sched.specs.declared.turn.Turn.TheVariants as turns;
ghost use Rattle.rank_sched.specs.Run.{is_stopped, new_run, IsAnswered, IsEmptyHaul};
ghost use Rattle.rank_sched.specs.Machine as machine;
ghost use Rattle.rank_sched.specs.Hauls as hauls;
ghost use Rattle.rank_sched.specs.Task.{task_of};

use crate::{Event, Haul, Plan, StepFault, Turn, record_of};
use ghcn_fields::Memory;
use std::alloc::Global;
use std::marker::Model;

/// Some workers that run over a plan, one atomic step after another.
#[derive(Drop)]
pub struct Machine<'a> {
    plan: &'a Plan<'a>,
    guess: Option<i64>,
    /// The number that the next claim draws.
    next: u64,
    floor: Option<i64>,
    /// Where each worker is in its turn, and its haul.
    turns: Vec<Turn>,
    hauls: Vec<Haul>,
    /// Memory was refused.
    failed: bool,
}

impl<'a> Model for Machine<'a> {
    ghost use Rattle.std.specs.Prelude.{◌≡◌, length};
    ghost use Rattle.rank_sched.specs.Run.{Running, state_of, IsRunning};

    ghost Value = { Running };

    ghost view = { λ m. record {
      plan = m.plan.now;
      guess = m.guess;
      state = state_of m.next m.floor m.turns.items m.hauls.items;
      failed = m.failed;
    } };

    ghost invariant = { λ m. (length m.turns.items ≡ length m.hauls.items) × IsRunning (record {
      plan = m.plan.now;
      guess = m.guess;
      state = state_of m.next m.floor m.turns.items m.hauls.items;
      failed = m.failed;
    }) };
}

impl<'a> Machine<'a> {
    /// Some workers that have done nothing, 1 to 64, under a guess from -2^31 to 2^31 or none.
    pub fn new(
        alloc: Global,
        plan: &'a Plan<'a>,
        workers: u64,
        guess: Option<i64>,
    ) -> Result<Self, Memory>
        requires some { 0 < workers }
        requires few { workers ≤ 64 }
        requires guess { IfSome guess IsScore }
        ensures { IfOk result (λ made. made ≡ new_run plan.now workers guess) }
    {
        Ok(Machine {
            plan,
            guess,
            next: 0,
            floor: guess,
            turns: idle_turns(alloc, workers)?,
            hauls: empty_hauls(alloc, plan.query().k(), workers)?,
            failed: false,
        })
    }

    /// Makes the step of an event, if its worker waits for it. Once memory was refused the machine
    /// has failed, and makes no more steps.
    pub fn step(&mut self, event: Event) -> Result<(), StepFault>
        ensures { IsAnswered self.old event result self.new }
    {
        if self.failed {
            return Err(StepFault::Memory(Memory));
        }
        match event {
            Event::Claim(worker) => self.claim(worker),
            Event::Look(worker) => self.look(worker),
            Event::Settle(worker) => self.settle(worker),
        }
    }

    /// An idle worker draws the next number.
    fn claim(&mut self, worker: u64) -> Result<(), StepFault>
        requires { self.old.failed ≡ false }
        ensures { IsAnswered self.old (events.Claim worker) result self.new }
    {
        match turn_of(self.turns.as_slice(), worker)? {
            Turn::Idle => {
                self.turns[worker as usize] = drawn(self.plan, self.next);
                self.next += 1;
                Ok(())
            }
            _ => Err(StepFault::NotNow(worker)),
        }
    }

    /// A worker that claimed a morsel sees the floor.
    fn look(&mut self, worker: u64) -> Result<(), StepFault>
        requires { self.old.failed ≡ false }
        ensures { IsAnswered self.old (events.Look worker) result self.new }
    {
        match turn_of(self.turns.as_slice(), worker)? {
            Turn::Claimed(morsel) => {
                self.turns[worker as usize] = Turn::Looked(morsel, self.floor);
                Ok(())
            }
            _ => Err(StepFault::NotNow(worker)),
        }
    }

    /// A worker that looked scans its morsel or skips it, and may raise the floor.
    fn settle(&mut self, worker: u64) -> Result<(), StepFault>
        requires { self.old.failed ≡ false }
        ensures { IsAnswered self.old (events.Settle worker) result self.new }
    {
        match turn_of(self.turns.as_slice(), worker)? {
            Turn::Looked(morsel, seen) => {
                let record = record_of(self.plan, worker, morsel, seen);
                match self.hauls[worker as usize].settle(self.plan, record) {
                    Ok(raised) => {
                        self.floor = greater_floor(self.floor, raised);
                        self.turns[worker as usize] = Turn::Idle;
                        Ok(())
                    }
                    Err(memory) => {
                        self.failed = true;
                        Err(StepFault::Memory(memory))
                    }
                }
            }
            _ => Err(StepFault::NotNow(worker)),
        }
    }

    /// The hauls of the workers, once all have stopped.
    pub fn hauls(self) -> Vec<Haul>
        requires { is_stopped self ≡ true }
        ensures hauls { hauls.AreHaulsOf self.entry.state.workers result.items }
        ensures sound { hauls.AreSound (task_of self.entry.plan) result.items }
        ensures under_floor { hauls.AreUnderFloor (task_of self.entry.plan) self.entry.guess result.items
            self.entry.state.floor }
    {
        self.hauls
    }

    /// Whether no memory was refused, and every worker has stopped.
    pub fn stopped(&self) -> bool
        ensures { result ≡ is_stopped self.now }
    {
        !self.failed && have_stopped(self.turns.as_slice())
    }
}

fn have_stopped(turns: &[Turn]) -> bool
    ensures { result ≡ list_all machine.has_stopped turns.now }
{
    turns.iter().all(|turn| has_stopped(*turn))
}

fn has_stopped(turn: Turn) -> bool
    ensures { result ≡ machine.has_stopped turn }
{
    match turn {
        Turn::Stopped(_) => true,
        _ => false,
    }
}

/// The turns of some workers that have done nothing.
fn idle_turns(alloc: Global, workers: u64) -> Result<Vec<Turn>, Memory>
    ensures { IfOk result (λ made. made.items ≡ replicate workers turns.Idle) }
{
    let mut made = Vec::new(alloc);
    for _ in 0..workers {
        made.push(Turn::Idle)?;
    }
    Ok(made)
}

/// The hauls of some workers that have done nothing.
fn empty_hauls(alloc: Global, k: u64, workers: u64) -> Result<Vec<Haul>, Memory>
    requires some { 0 < k }
    requires few { k ≤ 1000 }
    ensures len { IfOk result (λ made. length made.items ≡ workers) }
    ensures empty { IfOk result (λ made. AllByRecursion (IsEmptyHaul k) made.items) }
{
    let mut made = Vec::new(alloc);
    for _ in 0..workers {
        made.push(Haul::new(alloc, k)?)?;
    }
    Ok(made)
}

/// Where a worker is in its turn, if there is such a worker.
fn turn_of(turns: &[Turn], worker: u64) -> Result<Turn, StepFault>
    ensures ok { IfOk result (λ turn. slice_get turns.now worker ≡ Some turn) }
    ensures err { IfErr result (λ why. (why ≡ faults.NoWorker worker) × (length turns.now ≤ worker)) }
{
    match turns.get(worker as usize) {
        Some(turn) => Ok(*turn),
        None => Err(StepFault::NoWorker(worker)),
    }
}

/// A worker's turn after it drew a number.
fn drawn(plan: &Plan<'_>, number: u64) -> Turn
    ensures { result ≡ machine.drawn (task_of plan.now) number }
{
    if number < plan.len() {
        Turn::Claimed(number)
    } else {
        Turn::Stopped(number)
    }
}

/// The greater of two floors. `None` is below every score.
fn greater_floor(a: Option<i64>, b: Option<i64>) -> Option<i64>
    ensures { result ≡ machine.greater_floor a b }
{
    match (a, b) {
        (Some(a), Some(b)) => Some(a.max(b)),
        (None, b) => b,
        (a, None) => a,
    }
}
