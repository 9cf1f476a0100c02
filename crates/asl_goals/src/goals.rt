//! The actions on goals and on beliefs. Each is given all that an action may change.

ghost use Rattle.std.specs.Prelude.{◌≡◌, IfOk};
ghost use Rattle.asl_exec_circumstance.specs.Circumstance as parts;
ghost use Rattle.asl_goals.specs.Goals as goals;
ghost use Rattle.asl_goals.specs.Inside as spec;

use crate::acted::{Acted, Why};
use crate::lookup::first_goal;
use crate::sweep::{Way, cut_to_goal, sweep_all, treat};
use asl_beliefs::base::BeliefBase;
use asl_exec_circumstance::parts::{Circumstance, Surroundings, tell};
use asl_exec_circumstance::rows::Falls;
use asl_intend::stack::Stack;
use asl_resolve::actions::Actions;
use asl_term::sequence::{Seq, Starved};
use asl_term::syntax::Literal;
use std::alloc::Global;
use std::mem;

/// `.drop_intention`. The current stack goes too where it has the goal.
pub fn drop_intention<B: BeliefBase, A: Actions>(
    alloc: Global,
    k: &Surroundings<A>,
    p: &mut Circumstance<B>,
    asks: &mut u64,
    cur: &mut Stack,
    g: &Literal,
) -> Result<Acted, Starved>
    ensures did { IfOk result (λ a. spec.drop_intention (parts.seen_around A.solve k.now B.rules p.old) asks.old (parts.seen B.beliefs p.old) cur.old g.now
        ≡ spec.did (parts.seen B.beliefs p.new) asks.new cur.new a) }
    ensures beliefs { p.new.beliefs ≡ p.old.beliefs }
    ensures number { p.new.number ≡ p.old.number }
    ensures asks { asks.new ≡ asks.old }
{
    let here = cur.has_goal(alloc, g)?;
    p.agenda.drop_intention(alloc, g)?;
    if here {
        drop(mem::replace(cur, Stack::new(alloc)));
        return Ok(Acted::Gone(Seq::new(alloc)));
    }
    cur.remove_head();
    Ok(Acted::Ok(Seq::new(alloc)))
}

/// `.drop_desire`. The current stack goes too where it has the goal.
pub fn drop_desire<B: BeliefBase, A: Actions>(
    alloc: Global,
    k: &Surroundings<A>,
    p: &mut Circumstance<B>,
    asks: &mut u64,
    cur: &mut Stack,
    g: &Literal,
) -> Result<Acted, Starved>
    ensures did { IfOk result (λ a. spec.drop_desire (parts.seen_around A.solve k.now B.rules p.old) asks.old (parts.seen B.beliefs p.old) cur.old g.now
        ≡ spec.did (parts.seen B.beliefs p.new) asks.new cur.new a) }
    ensures beliefs { p.new.beliefs ≡ p.old.beliefs }
    ensures number { p.new.number ≡ p.old.number }
    ensures asks { asks.new ≡ asks.old }
{
    let here = cur.has_goal(alloc, g)?;
    p.agenda.drop_desire(alloc, g)?;
    if here {
        drop(mem::replace(cur, Stack::new(alloc)));
        return Ok(Acted::Gone(Seq::new(alloc)));
    }
    cur.remove_head();
    Ok(Acted::Ok(Seq::new(alloc)))
}

/// `.intend`, and `.desire` where `desired` is true: the first match is applied to the current stack.
pub fn looked_up<B: BeliefBase, A: Actions>(
    alloc: Global,
    k: &Surroundings<A>,
    p: &mut Circumstance<B>,
    asks: &mut u64,
    cur: &mut Stack,
    desired: bool,
    g: &Literal,
) -> Result<Acted, Starved>
    ensures did { IfOk result (λ a. spec.looked_up (parts.seen_around A.solve k.now B.rules p.old) asks.old (parts.seen B.beliefs p.old) cur.old desired g.now
        ≡ spec.did (parts.seen B.beliefs p.new) asks.new cur.new a) }
    ensures beliefs { p.new.beliefs ≡ p.old.beliefs }
    ensures number { p.new.number ≡ p.old.number }
    ensures asks { asks.new ≡ asks.old }
{
    match first_goal(alloc, desired, g, &p.agenda, cur)? {
        None => Ok(Acted::Failed(Why::NoMatch)),
        Some(s) => {
            cur.bind_match(alloc, s)?;
            cur.remove_head();
            Ok(Acted::Ok(Seq::new(alloc)))
        }
    }
}

/// What is left of the current stack after the others, for `.succeed_goal` and `.fail_goal`.
fn ended_here<B: BeliefBase, A: Actions>(
    alloc: Global,
    k: &Surroundings<A>,
    p: &mut Circumstance<B>,
    asks: &mut u64,
    cur: &mut Stack,
    way: Way,
    g: &Literal,
    falls: Falls,
) -> Result<Acted, Starved>
    ensures did { IfOk result (λ a. spec.current (parts.seen_around A.solve k.now B.rules p.old) asks.old (parts.seen B.beliefs p.old) cur.old way
        (parts.seen B.beliefs p.old) falls (goals.from_lowest g.now cur.old)
        ≡ spec.did (parts.seen B.beliefs p.new) asks.new cur.new a) }
    ensures beliefs { p.new.beliefs ≡ p.old.beliefs }
    ensures number { p.new.number ≡ p.old.number }
    ensures asks { asks.new ≡ asks.old }
{
    let mut falls = falls;
    if !cut_to_goal(alloc, cur, g)? {
        cur.remove_head();
        return Ok(Acted::Ok(falls));
    }
    treat(alloc, k, p, way, cur, &mut falls)?;
    if cur.len() == 0 {
        return Ok(Acted::Gone(falls));
    }
    Ok(Acted::Ok(falls))
}

/// `.succeed_goal` and `.fail_goal`. The current stack comes after all others.
pub fn ended<B: BeliefBase, A: Actions>(
    alloc: Global,
    k: &Surroundings<A>,
    p: &mut Circumstance<B>,
    asks: &mut u64,
    cur: &mut Stack,
    way: Way,
    g: &Literal,
) -> Result<Acted, Starved>
    ensures did { IfOk result (λ a. spec.ended (parts.seen_around A.solve k.now B.rules p.old) asks.old (parts.seen B.beliefs p.old) cur.old way g.now
        ≡ spec.did (parts.seen B.beliefs p.new) asks.new cur.new a) }
    ensures beliefs { p.new.beliefs ≡ p.old.beliefs }
    ensures number { p.new.number ≡ p.old.number }
    ensures asks { asks.new ≡ asks.old }
{
    let falls = sweep_all(alloc, k, p, way, g)?;
    ended_here(alloc, k, p, asks, cur, way, g, falls)
}

/// `.abolish`.
pub fn abolish<B: BeliefBase, A: Actions>(
    alloc: Global,
    k: &Surroundings<A>,
    p: &mut Circumstance<B>,
    asks: &mut u64,
    cur: &mut Stack,
    g: &Literal,
) -> Result<Acted, Starved>
    ensures did { IfOk result (λ a. spec.abolish (parts.seen_around A.solve k.now B.rules p.old) asks.old (parts.seen B.beliefs p.old) cur.old g.now
        ≡ spec.did (parts.seen B.beliefs p.new) asks.new cur.new a) }
    ensures rules { B.rules p.new.beliefs ≡ B.rules p.old.beliefs }
    ensures number { p.new.number ≡ p.old.number }
    ensures asks { asks.new ≡ asks.old }
{
    let events = p.beliefs.abolish(alloc, g)?;
    tell(alloc, &mut p.agenda, events)?;
    cur.remove_head();
    Ok(Acted::Ok(Seq::new(alloc)))
}
