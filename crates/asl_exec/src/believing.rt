//! The rows for beliefs that a plan adds, deletes and replaces.

ghost use Rattle.std.specs.Prelude.{◌≡◌, IfOk, OnOk};
ghost use Rattle.asl_exec.specs.Exec as rows;
ghost use Rattle.asl_exec_circumstance.specs.Circumstance as spec;

use asl_beliefs::base::BeliefBase;
use asl_beliefs::removed::{BeliefFault, Removed};
use asl_exec_circumstance::parts::{
    Circumstance, Surroundings, event_of, fails_as, tell, tell_one,
};
use asl_exec_circumstance::rows::Row;
use asl_exec_circumstance::went::Went;
use asl_intend::agenda::Error;
use asl_intend::stack::Stack;
use asl_resolve::actions::Actions;
use asl_term::sequence::Starved;
use asl_term::syntax::Literal;
use asl_unify::subst::no_subst;
use std::alloc::Global;

/// AddBel, or ExecFree where the literal has a variable. It has a source already.
pub fn add<B: BeliefBase, A: Actions>(
    alloc: Global,
    k: &Surroundings<A>,
    p: &mut Circumstance<B>,
    cur: &mut Stack,
    b: &Literal,
) -> Result<Went, Starved>
    ensures made { IfOk result (λ w. rows.add (spec.seen_around A.solve k.now B.rules p.old) (spec.seen B.beliefs p.old) cur.old b.now
        ≡ spec.made (spec.seen B.beliefs p.new) cur.new w) }
    ensures rules { B.rules p.new.beliefs ≡ B.rules p.old.beliefs }
    ensures number { p.new.number ≡ p.old.number }
{
    match p.beliefs.add(alloc, b) {
        Ok(event) => {
            tell_one(alloc, &mut p.agenda, event)?;
            cur.remove_head();
            Ok(Went::Row(Row::AddBel))
        }
        Err(BeliefFault::NotGround) => {
            fails_as(alloc, k, p, cur, Row::ExecFree, Error::NotGround)
        }
        Err(BeliefFault::Memory) => Err(Starved),
    }
}

/// RepBel, or ExecFree where the literal has a variable. It has a source already.
pub fn replace<B: BeliefBase, A: Actions>(
    alloc: Global,
    k: &Surroundings<A>,
    p: &mut Circumstance<B>,
    cur: &mut Stack,
    b: &Literal,
) -> Result<Went, Starved>
    ensures made { IfOk result (λ w. rows.replace (spec.seen_around A.solve k.now B.rules p.old) (spec.seen B.beliefs p.old) cur.old b.now
        ≡ spec.made (spec.seen B.beliefs p.new) cur.new w) }
    ensures rules { B.rules p.new.beliefs ≡ B.rules p.old.beliefs }
    ensures number { p.new.number ≡ p.old.number }
{
    match p.beliefs.replace(alloc, b) {
        Ok(events) => {
            tell(alloc, &mut p.agenda, events)?;
            cur.remove_head();
            Ok(Went::Row(Row::RepBel))
        }
        Err(BeliefFault::NotGround) => {
            fails_as(alloc, k, p, cur, Row::ExecFree, Error::NotGround)
        }
        Err(BeliefFault::Memory) => Err(Starved),
    }
}

/// Applies the substitution of the match, where there is one.
fn bind_by(cur: &mut Stack, removed: &Option<Removed>) -> Result<(), Starved>
    ensures { OnOk result (cur.new ≡ rows.bound_by removed.now cur.old) }
{
    match removed {
        None => Ok(()),
        Some(r) => cur.bind(&r.subst),
    }
}

/// DelBel. The literal has a source already.
pub fn delete<B: BeliefBase>(
    alloc: Global,
    p: &mut Circumstance<B>,
    cur: &mut Stack,
    b: &Literal,
) -> Result<Went, Starved>
    ensures made { IfOk result (λ w. rows.delete (spec.seen B.beliefs p.old) cur.old b.now ≡ spec.made (spec.seen B.beliefs p.new) cur.new w) }
    ensures rules { B.rules p.new.beliefs ≡ B.rules p.old.beliefs }
    ensures number { p.new.number ≡ p.old.number }
{
    let removed = p.beliefs.remove(alloc, b, &no_subst(alloc))?;
    bind_by(cur, &removed)?;
    cur.remove_head();
    tell_one(alloc, &mut p.agenda, event_of(removed))?;
    Ok(Went::Row(Row::DelBel))
}
