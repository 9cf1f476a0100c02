//! Goals for which a source has no plan.

ghost use Rattle.std.specs.Prelude.{◌≡◌, map, IfOk};
ghost use Rattle.look_pieces.specs.Goals.{unplanned};
ghost use Rattle.look_hints.specs.Planless as spec;

use crate::hint::{Code, Hint, Hints, Span, span_to};
use crate::pen::told_by_rule;
use crate::project::Member;
use crate::rules::{Subject, planless_rule};
use crate::sight::{Asked, Sight, sight_of};
use asl_term::sequence::{Seq, Starved};
use look_pieces::clause::ReadClause;
use look_pieces::goals::{PlacedGoal, unplanned};
use look_reasons::mark::{Mark, marks_of};
use std::alloc::Global;

/// The bytes of a goal that begins at a place: its `~` and its functor.
fn goal_span(marks: &[Mark<'_>], p: &PlacedGoal) -> Span {
    let mut end = p.place.at;
    for (k, m) in marks.iter().enumerate() {
        if m.at as u64 == p.place.at {
            let last = if p.goal.neg { k.saturating_add(1) } else { k };
            end = span_to(marks, last, last).end;
        }
    }
    Span {
        place: p.place,
        end,
    }
}

/// The hint at the place of a goal.
fn planless_hint<'a>(
    alloc: Global,
    m: &'a Member,
    marks: &[Mark<'_>],
    p: &'a PlacedGoal,
) -> Result<Hint, Starved>
    ensures { IfOk result (λ h. spec.spot h ≡ spec.spot_of p.now) }
{
    let asked = Asked {
        literal: &p.goal,
        member: m,
        world: None,
        tells_plans: false,
    };
    let s = Sight {
        asked: Some(asked),
        ..sight_of(Subject::Planless, goal_span(marks, p))
    };
    let mut h = told_by_rule(alloc, &s, planless_rule())?;
    h.place = p.place;
    h.code = Code::NoPlan;
    Ok(h)
}

/// The hints at the places of goals of a clause.
#[tactic(auto, using(crate::proofs::Spots::more, crate::proofs::Spots::all))]
fn hints_at(
    alloc: Global,
    m: &Member,
    c: &ReadClause,
    goals: &[PlacedGoal],
) -> Result<Hints, Starved>
    ensures { IfOk result (λ hs. map spec.spot hs ≡ map spec.spot_of goals.now) }
{
    let marks = marks_of(alloc, m.source.text.as_slice(), c.toks.as_slice())?;
    let mut all = Seq::new(alloc);
    let mut rest = goals;
    'goals: while let Some((p, after)) = rest.split_first() {
        all.push(planless_hint(alloc, m, marks.as_slice(), p)?)?;
        rest = after;
    }
    Ok(all)
}

/// The hints at the goals of a clause for which its source has no plan. There is none where some message may tell a plan.
pub fn planless(
    alloc: Global,
    tells_plans: bool,
    m: &Member,
    c: &ReadClause,
) -> Result<Hints, Starved>
    ensures { IfOk result (λ hs. map spec.spot hs ≡ spec.planless tells_plans m.now.source.clauses c.now) }
{
    if tells_plans {
        return Ok(Seq::new(alloc));
    }
    let goals = unplanned(alloc, m.source.clauses.as_slice(), c)?;
    let hints = hints_at(alloc, m, c, goals.as_slice());
    drop(goals);
    hints
}
