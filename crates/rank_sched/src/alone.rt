//! A run with one worker.

ghost use Rattle.std.specs.Prelude.{◌≡◌, None, IfOk, IfSome};
ghost use Rattle.ghcn_fields.specs.Floor.{IsScore};
ghost use Rattle.rank_sched.specs.Answers.{IsAnswerOfCrew, AreRecordsAlone, AreBestOfQuery};
ghost use Rattle.rank_sched.specs.Machine.{refusal};
ghost use Rattle.rank_sched.specs.Run.{Steps};
ghost use Rattle.rank_sched.specs.Task.{task_of};

use crate::{Answer, Event, Machine, Plan, StepFault, finish};
use ghcn_fields::Memory;
use std::alloc::Global;

/// The answer of one worker that runs a plan to its end, under a guess from -2^31 to 2^31 or none.
pub fn run_alone(alloc: Global, plan: &Plan<'_>, guess: Option<i64>) -> Result<Answer, Memory>
    requires { IfSome guess IsScore }
    ensures answer { IfOk result (IsAnswerOfCrew plan.now guess 1) }
    ensures alone { IfOk result (λ answer. AreRecordsAlone (task_of plan.now) guess answer.records.items) }
    ensures best { IfOk result (λ answer. AreBestOfQuery plan.now answer.best.items) }
{
    let mut machine = Machine::new(alloc, plan, 1, guess)?;
    for _ in 0..plan.len() {
        advance(&mut machine, Event::Claim(0))?;
        advance(&mut machine, Event::Look(0))?;
        advance(&mut machine, Event::Settle(0))?;
    }
    advance(&mut machine, Event::Claim(0))?;
    finish(alloc, plan, machine.hauls())
}

/// Makes a step that isn't refused.
fn advance(machine: &mut Machine<'_>, event: Event) -> Result<(), Memory>
    requires { refusal machine.old.state event ≡ None }
    ensures { IfOk result (λ done. Steps machine.old event machine.new) }
{
    match machine.step(event) {
        Ok(()) => Ok(()),
        Err(StepFault::Memory(memory)) => Err(memory),
        Err(StepFault::NoWorker(_)) | Err(StepFault::NotNow(_)) => unreachable!(),
    }
}
