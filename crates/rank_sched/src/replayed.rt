//! A run from a list of events.

ghost use Rattle.std.specs.Prelude.{◌≡◌, ◌<◌, ◌≤◌, false, IfOk, IfErr, IfSome, map};
ghost use Rattle.ghcn_fields.specs.Floor.{IsScore};
ghost use Rattle.rank_sched.specs.Machine.{Reaches};
ghost use Rattle.rank_sched.specs.Run.{IsReplayed, IsReplayFault};

use crate::{Event, Machine, Plan, ReplayFault, StepFault};
use std::alloc::Global;

/// The machine after all of these events, or the first refusal.
pub fn replay<'a>(
    alloc: Global,
    plan: &'a Plan<'a>,
    workers: u64,
    guess: Option<i64>,
    events: &[Event],
) -> Result<Machine<'a>, ReplayFault>
    requires some { 0 < workers }
    requires few { workers ≤ 64 }
    requires guess { IfSome guess IsScore }
    ensures ok { IfOk result (IsReplayed plan.now workers guess events.now) }
    ensures err { IfErr result (λ fault.
        IsReplayFault plan.now workers guess events.now fault.accepted fault.why) }
{
    let mut machine = match Machine::new(alloc, plan, workers, guess) {
        Ok(machine) => machine,
        Err(memory) => {
            return Err(ReplayFault {
                accepted: 0,
                why: StepFault::Memory(memory),
            });
        }
    };
    for accepted in 0..events.len() {
        if let Err(why) = machine.step(events[accepted]) {
            return Err(ReplayFault {
                accepted: accepted as u64,
                why,
            });
        }
    }
    Ok(machine)
}
