//! The plan that a text is.

ghost use Rattle.std.specs.Prelude.{◌≡◌, IfOk};
ghost use Rattle.asl_print_plan.specs.Plans as spec;

use asl_parser::agent::sentences;
use asl_parser::sentence::{Sentence, Sentences};
use asl_parser_expr::fault::TextFault;
use asl_term::sequence::Starved;
use asl_term::syntax::Plan;
use std::alloc::Global;

/// The plan of a sentence that is one.
fn plan_said(s: Sentence) -> Option<Plan>
    ensures { result ≡ spec.plan_said s }
{
    match s {
        Sentence::Plan(p) => Some(p),
        Sentence::Belief(l) => {
            drop(l);
            None
        }
        Sentence::Rule(c) => {
            drop(c);
            None
        }
        Sentence::Goal(g) => {
            drop(g);
            None
        }
    }
}

/// The plan of sentences of which there is one.
#[tactic(auto, using(crate::proofs::Alone::none_said, crate::proofs::Alone::one_said_alone, crate::proofs::Alone::more_said))]
fn only_plan(said: Sentences) -> Option<Plan>
    ensures { result ≡ spec.only_said said }
{
    let mut left = said;
    match left.pop() {
        None => None,
        Some(s) => {
            let alone = left.len() == 0;
            drop(left);
            if alone {
                return plan_said(s);
            }
            drop(s);
            None
        }
    }
}

/// The plan that the bytes are, where they are one: as the source of an agent they say that plan, within the limits, and nothing else.
#[tactic(auto, using(crate::proofs::Alone::is_said, crate::proofs::Alone::is_refused))]
pub fn plan_of(alloc: Global, bytes: &[u8]) -> Result<Option<Plan>, Starved>
    ensures { IfOk result (λ r. r ≡ spec.plan_in bytes.now) }
{
    match sentences(alloc, bytes) {
        Ok(said) => Ok(only_plan(said)),
        Err(TextFault::Memory) => Err(Starved),
        Err(_) => Ok(None),
    }
}
