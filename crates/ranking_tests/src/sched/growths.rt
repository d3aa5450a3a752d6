//! Runs of which `tests/grow` refuses one allocation after the other.
//!
//! A test prints `memory` if the call that it is about met the refusal, and `answered` if it
//! returned what it has to. It prints nothing if what is made beforehand met it.

ghost use Rattle.std.specs.Prelude.{◌<◌, ◌≤◌};

use super::*;
use ghcn_fields::Memory;
use rank_sched::Machine;
use std::test::Fail;

/// What a run prints.
#[derive(Clone, Copy)]
enum Told {
    /// What is made beforehand met the refusal.
    Nothing,
    Memory,
    Answered,
    /// What it must not.
    Other,
}

fn tell<R: Print>(rt: &R, told: Told) -> Result<(), Fail> {
    match told {
        Told::Nothing => {}
        Told::Memory => println!(rt; "memory")?,
        Told::Answered => println!(rt; "answered")?,
        Told::Other => return Err("another answer")?,
    }
    Ok(())
}

/// One worker to its end.
const ALONE: [Event; 10] = [C0, L0, S0, C0, L0, S0, C0, L0, S0, C0];

/// Two workers to their ends, of which the second settles first.
const BOTH: [Event; 11] = [C0, L0, C1, L1, S1, S0, C0, L0, S0, C0, C1];

/// Events of which some would be accepted, and others refused, had the machine not failed.
const LATE: [Event; 5] = [C0, L1, S0, C1, Event::Claim(64)];

/// Whether each later step is refused for out of memory, and the machine never stops.
fn has_failed(machine: &mut Machine<'_>) -> bool {
    for late in LATE {
        let is_refused = machine.step(late) == Err(StepFault::Memory(Memory));
        if !is_refused || machine.stopped() {
            return false;
        }
    }
    true
}

/// Makes all of these steps. If memory is refused to one, each later step is refused for it too,
/// and the machine never stops.
fn make_steps(machine: Machine<'_>, events: &[Event]) -> Told {
    let mut machine = machine;
    for event in events {
        match machine.step(*event) {
            Ok(()) => {}
            Err(StepFault::Memory(_)) => {
                return if has_failed(&mut machine) {
                    Told::Memory
                } else {
                    Told::Other
                };
            }
            Err(_) => return Told::Other,
        }
    }
    if machine.stopped() {
        Told::Answered
    } else {
        Told::Other
    }
}

/// A machine over this plan, and its steps.
fn run_plan(alloc: Global, plan: &Plan<'_>, workers: u64, events: &[Event]) -> Told
    requires some { 0 < workers }
    requires few { workers ≤ 64 }
{
    match Machine::new(alloc, plan, workers, None) {
        Ok(machine) => make_steps(machine, events),
        Err(Memory) => Told::Nothing,
    }
}

/// The steps of a machine over the usual plan.
fn run_steps(alloc: Global, workers: u64, events: &[Event]) -> Option<Told>
    requires some { 0 < workers }
    requires few { workers ≤ 64 }
{
    let data = data_of(alloc, &USUAL)?;
    let plan = plan_of_one(alloc, &data)?;
    Some(run_plan(alloc, &plan, workers, events))
}

#[test]
fn steps_of_one_worker(rt: HostRuntime) -> Result<(), Fail> {
    let told = run_steps(rt.alloc(), 1, &ALONE);
    tell(&rt, told.unwrap_or(Told::Nothing))
}

#[test]
fn steps_of_two_workers(rt: HostRuntime) -> Result<(), Fail> {
    let told = run_steps(rt.alloc(), 2, &BOTH);
    tell(&rt, told.unwrap_or(Told::Nothing))
}

#[test]
fn a_replay(rt: HostRuntime) -> Result<(), Fail> {
    let told = match refusal(rt.alloc(), &BOTH) {
        None => Told::Nothing,
        Some(None) => Told::Answered,
        Some(
            Some(
                ReplayFault {
                    accepted,
                    why: StepFault::Memory(_),
                },
            ),
        ) => {
            println!(rt; "behind-{accepted}")?;
            Told::Memory
        }
        Some(Some(_)) => Told::Other,
    };
    tell(&rt, told)
}

/// A run under a guess that is too high: the lines, and how many skips are undone.
fn taken_back(alloc: Global) -> Option<Result<(Option<Lines>, u64), Memory>> {
    let data = data_of(alloc, &USUAL)?;
    let plan = plan_of_one(alloc, &data)?;
    match run_alone(alloc, &plan, Some(1000)) {
        Ok(answer) => Some(Ok((lines_of(&answer), answer.taken_back))),
        Err(Memory) => Some(Err(Memory)),
    }
}

#[test]
fn a_run_whose_skips_are_taken_back(rt: HostRuntime) -> Result<(), Fail> {
    let told = match taken_back(rt.alloc()) {
        None => Told::Nothing,
        Some(Ok(found)) if found == (Some(SKIPPED), 2) => Told::Answered,
        Some(Ok(_)) => Told::Other,
        Some(Err(Memory)) => Told::Memory,
    };
    tell(&rt, told)
}
