//! The variables that stand in a term.

ghost use Rattle.std.specs.Prelude.{◌≡◌, IfOk, map};
ghost use Rattle.std.specs.List.{list_any};
ghost use Rattle.asl_term.specs.Trees as tree;
ghost use Rattle.asl_term.specs.Variables as spec;

use crate::compare::same_var;
use crate::copying::copy_var;
use crate::sequence::{Seq, Starved};
use crate::syntax::{Term, Var};
use std::alloc::Global;

pub type Vars = Seq<Var>;

/// Whether a variable stands in a term.
#[cycle(occurs)]
pub fn occurs(v: &Var, t: &Term) -> bool
    ensures { result ≡ spec.occurs v.now t.now }
{
    match t {
        Term::Num(_) | Term::Str(_) => false,
        Term::Var(y) => same_var(y, v),
        Term::Lit(l) => occurs_in(v, l.args.as_slice()) || occurs_in(v, l.annots.as_slice()),
        Term::List(l) => {
            occurs_in(v, l.items.as_slice())
                || match &l.tail {
                    None => false,
                    Some(tail) => occurs(v, tail.get()),
                }
        }
        Term::Op(a) => occurs(v, a.left.get()) || occurs(v, a.right.get()),
    }
}

#[cycle(occurs)]
fn occurs_in(v: &Var, ts: &[Term]) -> bool
    ensures { result ≡ spec.any (map (spec.occurs v.now) ts.now) }
{
    for t in ts {
        if occurs(v, t) {
            return true;
        }
    }
    false
}

fn was_noted(v: &Var, found: &[Var]) -> bool
    ensures { result ≡ list_any (λ y. tree.same_var y v.now) found.now }
{
    found.iter().any(|y| same_var(y, v))
}

/// Notes a variable, unless it was noted before.
fn note(alloc: Global, v: &Var, found: &mut Vars) -> Result<(), Starved>
    ensures { IfOk result (λ _. found.new ≡ spec.with_var found.old v.now) }
{
    if was_noted(v, found.as_slice()) {
        return Ok(());
    }
    let v = copy_var(alloc, v)?;
    found.push(v)
}

/// Notes the variables of a term, from left to right.
#[cycle(gather)]
#[tactic(auto, using(crate::proofs::Noted::noted_append))]
fn gather(alloc: Global, t: &Term, found: &mut Vars) -> Result<(), Starved>
    ensures { IfOk result (λ _. found.new ≡ spec.noted found.old (spec.vars t.now)) }
{
    match t {
        Term::Num(_) => Ok(()),
        Term::Str(_) => Ok(()),
        Term::Var(v) => note(alloc, v, found),
        Term::Lit(l) => {
            gather_all(alloc, l.args.as_slice(), found)?;
            gather_all(alloc, l.annots.as_slice(), found)?;
            Ok(())
        }
        Term::List(l) => {
            gather_all(alloc, l.items.as_slice(), found)?;
            if let Some(tail) = &l.tail {
                gather(alloc, tail.get(), found)?;
            }
            Ok(())
        }
        Term::Op(a) => {
            gather(alloc, a.left.get(), found)?;
            gather(alloc, a.right.get(), found)?;
            Ok(())
        }
    }
}

#[cycle(gather)]
fn gather_all(alloc: Global, ts: &[Term], found: &mut Vars) -> Result<(), Starved>
    ensures { IfOk result (λ _. found.new ≡ spec.noted found.old (spec.joined (map spec.vars ts.now))) }
{
    for t in ts {
        gather(alloc, t, found)?;
    }
    Ok(())
}

/// The distinct variables of a term, in order of first occurrence.
pub fn variables(alloc: Global, t: &Term) -> Result<Vars, Starved>
    ensures { IfOk result (λ r. r ≡ spec.variables t.now) }
{
    let mut found = Seq::new(alloc);
    gather(alloc, t, &mut found)?;
    Ok(found)
}
