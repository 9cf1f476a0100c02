//! Which variables of an act are bound when its effects are made.

ghost use Rattle.std.specs.Prelude.{◌≡◌, ◌++◌, IfOk};
ghost use Rattle.std.specs.List.{list_all};
ghost use Rattle.asl_parser_tree.specs.Leaves.{Gives};
ghost use Rattle.env_file.specs.Binding as spec;

use crate::statement::{Effect, Part, WrittenAct};
use asl_term::compare::same_var;
use asl_term::copying::{copy_literal, copy_var, text_of};
use asl_term::sequence::{Seq, Starved};
use asl_term::syntax::{Literal, RelOp, Relation, Term, Text, Var};
use asl_term::variables::{Vars, variables};
use std::alloc::Global;

fn literal_variables(alloc: Global, l: &Literal) -> Result<Vars, Starved>
    ensures { IfOk result (λ vs. vs ≡ spec.literal_variables l.now) }
{
    let t = Term::Lit(copy_literal(alloc, l)?);
    let vs = variables(alloc, &t);
    // The proof of a function that ends a tree in place is long.
    drop(t);
    vs
}

fn is_bound(bound: &[Var], v: &Var) -> bool
    ensures { result ≡ spec.is_bound bound.now v.now }
{
    bound.iter().any(|y| same_var(y, v))
}

fn are_bound(bound: &[Var], vs: &[Var]) -> bool
    ensures { result ≡ list_all (spec.is_bound bound.now) vs.now }
{
    let mut rest = vs;
    'variables: while let Some((v, after)) = rest.split_first() {
        if !is_bound(bound, v) {
            return false;
        }
        rest = after;
    }
    true
}

fn with_variable(alloc: Global, bound: Vars, t: &Term) -> Result<Vars, Starved>
    ensures { IfOk result (λ vs. vs ≡ bound ++ spec.variable_of t.now) }
{
    let mut all = bound;
    match t {
        Term::Var(v) => {
            all.push(copy_var(alloc, v)?)?;
            Ok(all)
        }
        _ => Ok(all),
    }
}

fn with_target(alloc: Global, bound: Vars, r: &Relation) -> Result<Vars, Starved>
    ensures { IfOk result (λ vs. vs ≡ bound ++ spec.target r.now.op r.now.left) }
{
    match r.op {
        RelOp::Unify => with_variable(alloc, bound, &r.left),
        _ => Ok(bound),
    }
}

/// Behind a relation: `V = t` binds `V` where all of `t` is bound.
fn related(alloc: Global, bound: Vars, r: &Relation) -> Result<Vars, Starved>
    ensures { IfOk result (λ vs. vs ≡ spec.related bound r.now) }
{
    let vs = variables(alloc, &r.right)?;
    if are_bound(bound.as_slice(), vs.as_slice()) {
        with_target(alloc, bound, r)
    } else {
        Ok(bound)
    }
}

fn with_literal(alloc: Global, bound: Vars, l: &Literal) -> Result<Vars, Starved>
    ensures { IfOk result (λ vs. vs ≡ bound ++ spec.literal_variables l.now) }
{
    let mut all = bound;
    all.append_all(literal_variables(alloc, l)?)?;
    Ok(all)
}

fn with_part(alloc: Global, bound: Vars, p: &Part) -> Result<Vars, Starved>
    ensures { IfOk result (λ vs. vs ≡ spec.with_part bound p.now) }
{
    match p {
        Part::Holds(l) => with_literal(alloc, bound, l),
        Part::Denied(_) => Ok(bound),
        Part::Related(r) => related(alloc, bound, r),
    }
}

fn with_parts(alloc: Global, bound: Vars, ps: &[Part]) -> Result<Vars, Starved>
    ensures { IfOk result (λ vs. vs ≡ spec.with_parts bound ps.now) }
{
    let mut all = bound;
    let mut rest = ps;
    'parts: while let Some((p, after)) = rest.split_first() {
        all = with_part(alloc, all, p)?;
        rest = after;
    }
    Ok(all)
}

fn first_free(alloc: Global, bound: &[Var], vs: &[Var]) -> Result<Option<Text>, Starved>
    ensures { Gives (λ x. x) result (spec.first_free bound.now vs.now) }
{
    let mut rest = vs;
    'variables: while let Some((v, after)) = rest.split_first() {
        if !is_bound(bound, v) {
            return Ok(Some(text_of(alloc, v.name.as_slice())?));
        }
        rest = after;
    }
    Ok(None)
}

fn with_effect(alloc: Global, bound: Vars, e: &Effect) -> Result<Vars, Starved>
    ensures { IfOk result (λ vs. vs ≡ bound ++ spec.variables_in e.now) }
{
    match e {
        Effect::Added(l) => with_literal(alloc, bound, l),
        Effect::Deleted(l) => with_literal(alloc, bound, l),
        Effect::Dropped(_) => Ok(bound),
    }
}

#[tactic(auto, using(crate::proofs::Lists::flat_more, crate::proofs::Lists::flat_all))]
fn effect_variables(alloc: Global, es: &[Effect]) -> Result<Vars, Starved>
    ensures { IfOk result (λ vs. vs ≡ spec.effect_variables es.now) }
{
    let mut all: Vars = Seq::new(alloc);
    let mut rest = es;
    'effects: while let Some((e, after)) = rest.split_first() {
        all = with_effect(alloc, all, e)?;
        rest = after;
    }
    Ok(all)
}

fn bound_at_first(alloc: Global, a: &WrittenAct) -> Result<Vars, Starved>
    ensures { IfOk result (λ vs. vs ≡ spec.bound_at_first a.now) }
{
    let mut all = literal_variables(alloc, &a.head)?;
    all.append_all(variables(alloc, &a.by)?)?;
    Ok(all)
}

/// The name of the first variable of the effects that nothing binds.
pub fn unbound(alloc: Global, a: &WrittenAct, ps: &[Part]) -> Result<Option<Text>, Starved>
    ensures { Gives (λ x. x) result (spec.unbound a.now ps.now) }
{
    let bound = with_parts(alloc, bound_at_first(alloc, a)?, ps)?;
    let vs = effect_variables(alloc, a.effects.as_slice())?;
    first_free(alloc, bound.as_slice(), vs.as_slice())
}
