//! The row for the current stack after a formula.

ghost use Rattle.std.specs.Prelude.{◌≡◌, IfOk};
ghost use Rattle.asl_exec.specs.Clear as rows;
ghost use Rattle.asl_exec_circumstance.specs.Circumstance as spec;

use asl_beliefs::base::BeliefBase;
use asl_exec_circumstance::emptied::emptied;
use asl_exec_circumstance::parts::{Circumstance, Surroundings};
use asl_exec_circumstance::rows::Row;
use asl_exec_circumstance::went::Went;
use asl_intend::stack::Stack;
use asl_resolve::actions::Actions;
use asl_term::sequence::Starved;
use std::alloc::Global;
use std::mem;

/// ClrInt3: the stack goes to the back of those that run.
fn wait<B: BeliefBase>(
    alloc: Global,
    p: &mut Circumstance<B>,
    cur: &mut Stack,
) -> Result<Went, Starved>
    ensures made { IfOk result (λ w. rows.waits (spec.seen B.beliefs p.old) cur.old ≡ spec.made (spec.seen B.beliefs p.new) cur.new w) }
    ensures beliefs { p.new.beliefs ≡ p.old.beliefs }
    ensures number { p.new.number ≡ p.old.number }
{
    let stack = mem::replace(cur, Stack::new(alloc));
    p.agenda.ready(stack)?;
    Ok(Went::Row(Row::ClrInt3))
}

/// The row for the current stack.
#[tactic(auto, unfolding(crate::specs::Clear::clear))]
pub fn clear<B: BeliefBase, A: Actions>(
    alloc: Global,
    k: &Surroundings<A>,
    p: &mut Circumstance<B>,
    cur: &mut Stack,
) -> Result<Went, Starved>
    ensures made { IfOk result (λ w. rows.clear (spec.seen_around A.solve k.now B.rules p.old) (spec.seen B.beliefs p.old) cur.old
        ≡ spec.made (spec.seen B.beliefs p.new) cur.new w) }
    ensures beliefs { p.new.beliefs ≡ p.old.beliefs }
    ensures number { p.new.number ≡ p.old.number }
{
    if cur.has_head() {
        return wait(alloc, p, cur);
    }
    emptied(alloc, k, p, cur)
}
