//! What an agent begins with.

ghost use Rattle.std.specs.Prelude.{◌≡◌, ◌++◌, map, IfOk, OnOk};
ghost use Rattle.asl_cycle.specs.Opening as spec;

use asl_beliefs::sources::with_source;
use asl_exec_circumstance::parts::goal_trigger;
use asl_term::copying::copy_plan;
use asl_term::sequence::{Seq, Starved};
use asl_term::syntax::{Kind, Literal, Plan, Plans, Trigger, Triggers};
use std::alloc::Global;

/// Equal plans, in order.
pub fn copy_plans(alloc: Global, plans: &[Plan]) -> Result<Plans, Starved>
    ensures { IfOk result (λ r. r ≡ plans.now) }
{
    let mut r = Seq::new(alloc);
    for p in plans {
        r.push(copy_plan(alloc, p)?)?;
    }
    Ok(r)
}

/// What an initial goal is the event of.
fn initial_goal(alloc: Global, g: &Literal) -> Result<Trigger, Starved>
    ensures { IfOk result (λ r. r ≡ spec.initial_goal g.now) }
{
    let lit = with_source(alloc, g)?;
    Ok(goal_trigger(Kind::Achieve, lit))
}

/// Puts those of the initial goals last.
pub fn add_goals(alloc: Global, goals: &[Literal], events: &mut Triggers) -> Result<(), Starved>
    ensures { OnOk result (events.new ≡ events.old ++ map spec.initial_goal goals.now) }
{
    for g in goals {
        events.push(initial_goal(alloc, g)?)?;
    }
    Ok(())
}
