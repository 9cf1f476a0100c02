//! The rows Achieve and Unachieve.

ghost use Rattle.std.specs.Prelude.{◌≡◌, IfOk};
ghost use Rattle.asl_exec_circumstance.specs.Circumstance as parts;
ghost use Rattle.asl_kqml.specs.Receive as spec;

use crate::sourced::sourced;
use crate::took::{Took, by};
use asl_beliefs::base::BeliefBase;
use asl_exec_circumstance::parts::{Circumstance, external_event, goal_trigger};
use asl_exec_circumstance::rows::Row;
use asl_term::sequence::Starved;
use asl_term::syntax::{Kind, Literal, Text};
use std::alloc::Global;

/// Achieve, or Ignore where there is no goal. The event is external.
pub fn achieve<B: BeliefBase>(
    alloc: Global,
    name: &Text,
    p: &mut Circumstance<B>,
    g: Option<Literal>,
) -> Result<Took, Starved>
    ensures made { IfOk result (λ t. spec.achieve name.now (parts.seen B.beliefs p.old) g ≡ spec.received (parts.seen B.beliefs p.new) t) }
    ensures beliefs { p.new.beliefs ≡ p.old.beliefs }
    ensures number { p.new.number ≡ p.old.number }
{
    match g {
        None => Ok(by(alloc, Row::Ignore)),
        Some(g) => {
            let lit = sourced(alloc, name, g)?;
            p.agenda
                .post(external_event(alloc, goal_trigger(Kind::Achieve, lit)))?;
            Ok(by(alloc, Row::Achieve))
        }
    }
}

/// Unachieve, or Ignore where there is no goal: the desire is dropped.
pub fn unachieve<B: BeliefBase>(
    alloc: Global,
    p: &mut Circumstance<B>,
    g: &Option<Literal>,
) -> Result<Took, Starved>
    ensures made { IfOk result (λ t. spec.unachieve (parts.seen B.beliefs p.old) g.now ≡ spec.received (parts.seen B.beliefs p.new) t) }
    ensures beliefs { p.new.beliefs ≡ p.old.beliefs }
    ensures number { p.new.number ≡ p.old.number }
{
    match g {
        None => Ok(by(alloc, Row::Ignore)),
        Some(g) => {
            p.agenda.drop_desire(alloc, g)?;
            Ok(by(alloc, Row::Unachieve))
        }
    }
}
