//! Whether the trigger of a plan covers a goal.

ghost use Rattle.std.specs.Prelude.{◌≡◌, IfOk, Some, [], ◌∷◌, map, drop, take};
ghost use Rattle.std.specs.List.{list_all, list_any};
ghost use Rattle.std.specs.Option.{option_copied};
ghost use Rattle.asl_term.specs.declared.syntax.Term.TheViews.{out-Term};
ghost use Rattle.asl_term.specs.Variables.{occurs as occurs_in};
ghost use Rattle.asl_lint.specs.Covers as spec;

use asl_term::boxed::Boxed;
use asl_term::compare::{equal, same_text, same_var};
use asl_term::copying::{copy, copy_all, copy_var};
use asl_term::sequence::{Seq, Starved};
use asl_term::syntax::{Listing, ListingOf, Literal, Term, Var};
use asl_term::variables::occurs;
use std::alloc::Global;

/// A variable of a trigger, and the term that it has to be.
#[derive(Drop)]
pub struct Need {
    pub var: Var,
    pub term: Term,
}

pub type Needs = Seq<Need>;

fn nothing_if(alloc: Global, holds: bool) -> Option<Needs>
    ensures { result ≡ spec.nothing_if holds }
{
    if holds { Some(Seq::new(alloc)) } else { None }
}

fn both(first: Option<Needs>, second: Option<Needs>) -> Result<Option<Needs>, Starved>
    ensures { IfOk result (λ r. r ≡ spec.both first second) }
{
    let Some(mut all) = first else {
        return Ok(None);
    };
    let Some(more) = second else {
        return Ok(None);
    };
    all.append_all(more)?;
    Ok(Some(all))
}

fn one_need(alloc: Global, x: &Var, t: &Term) -> Result<Option<Needs>, Starved>
    ensures { IfOk result (λ r. r ≡ Some (spec.need x.now t.now ∷ [])) }
{
    let mut all = Seq::new(alloc);
    let var = copy_var(alloc, x)?;
    let term = copy(alloc, t)?;
    all.push(Need { var, term })?;
    Ok(Some(all))
}

/// The first terms, so many or all.
fn front(ts: &[Term], n: usize) -> &[Term]
    ensures { result.now ≡ take n ts.now }
{
    if n < ts.len() { &ts[..n] } else { ts }
}

/// The terms behind so many.
fn behind(ts: &[Term], n: usize) -> &[Term]
    ensures { result.now ≡ drop n ts.now }
{
    if n < ts.len() {
        &ts[n..]
    } else {
        &ts[ts.len()..]
    }
}

/// What is left of a list behind so many items.
fn rest(alloc: Global, l: &Listing, n: usize) -> Result<Term, Starved>
    ensures { IfOk result (λ r. r ≡ spec.rest (drop n l.now.items) l.now.tail) }
{
    let items = behind(l.items.as_slice(), n);
    match &l.tail {
        None => {
            let items = copy_all(alloc, items)?;
            Ok(Term::List(ListingOf { items, tail: None }))
        }
        Some(tail) => {
            let tail = copy(alloc, tail.get())?;
            if items.is_empty() {
                return Ok(tail);
            }
            let items = copy_all(alloc, items)?;
            let tail = Some(Boxed::new(alloc, tail)?);
            Ok(Term::List(ListingOf { items, tail }))
        }
    }
}

/// Whether a list ends behind so many items, as needs.
fn ends(alloc: Global, l: &Listing, n: usize) -> Option<Needs>
    ensures { result ≡ spec.nothing_if (spec.is_empty (drop n l.now.items) l.now.tail) }
{
    nothing_if(
        alloc,
        l.tail.is_none() && behind(l.items.as_slice(), n).is_empty(),
    )
}

fn same_head(l: &Literal, m: &Literal) -> bool
    ensures { result ≡ spec.same_head l.now.neg l.now.functor m.now }
{
    l.neg == m.neg && same_text(&l.functor, &m.functor)
}

/// What the variables of `h` have to be for it to become `g`.
#[cycle(needs)]
#[tactic(auto, using(crate::proofs::Needing::list_ended, crate::proofs::Needing::list_going))]
fn needs(alloc: Global, h: &Term, g: &Term) -> Result<Option<Needs>, Starved>
    ensures { IfOk result (λ r. r ≡ spec.needs h.now g.now) }
{
    match (h, g) {
        (Term::Var(x), _) => one_need(alloc, x, g),
        (Term::Num(m), Term::Num(n)) => Ok(nothing_if(alloc, *m == *n)),
        (Term::Str(a), Term::Str(b)) => Ok(nothing_if(alloc, same_text(a, b))),
        (Term::Lit(l), Term::Lit(m)) => {
            if !same_head(l, m) {
                return Ok(None);
            }
            let args = all_need(alloc, l.args.as_slice(), m.args.as_slice())?;
            let annots = all_need(alloc, l.annots.as_slice(), m.annots.as_slice())?;
            both(args, annots)
        }
        (Term::List(l), Term::List(m)) => {
            let n = l.items.len() as usize;
            let items = all_need(alloc, l.items.as_slice(), front(m.items.as_slice(), n))?;
            match &l.tail {
                None => both(items, ends(alloc, m, n)),
                Some(tail) => {
                    let left = rest(alloc, m, n)?;
                    let end = needs(alloc, tail.get(), &left);
                    drop(left);
                    both(items, end?)
                }
            }
        }
        (Term::Op(a), Term::Op(b)) => {
            if a.op != b.op {
                return Ok(None);
            }
            let left = needs(alloc, a.left.get(), b.left.get())?;
            let right = needs(alloc, a.right.get(), b.right.get())?;
            both(left, right)
        }
        _ => Ok(None),
    }
}

#[cycle(needs)]
#[tactic(auto, using(crate::proofs::Needing::all_short))]
fn all_need(alloc: Global, hs: &[Term], gs: &[Term]) -> Result<Option<Needs>, Starved>
    ensures { IfOk result (λ r. r ≡ spec.all_need (map spec.needs hs.now) gs.now) }
{
    if hs.len() != gs.len() {
        return Ok(None);
    }
    let mut all = Seq::new(alloc);
    for i in 0..hs.len() {
        match needs(alloc, &hs[i], &gs[i])? {
            None => return Ok(None),
            Some(more) => all.append_all(more)?,
        }
    }
    Ok(Some(all))
}

/// Whether two needs are not two terms for one variable.
fn agree(p: &Need, q: &Need) -> bool
    ensures { result ≡ spec.agree p.now q.now }
{
    !same_var(&p.var, &q.var) || equal(&p.term, &q.term)
}

fn agrees_with(p: &Need, more: &[Need]) -> bool
    ensures { result ≡ list_all (spec.agree p.now) more.now }
{
    more.iter().all(|q| agree(p, q))
}

/// Whether each variable has to be one term.
fn one_each(needs: &[Need]) -> bool
    ensures { result ≡ spec.one_each needs.now }
{
    for k in 0..needs.len() {
        if !agrees_with(&needs[k], &needs[k + 1..]) {
            return false;
        }
    }
    true
}

/// Whether some terms for the variables on the left make both lists one.
fn can_become(alloc: Global, hs: &[Term], gs: &[Term]) -> Result<bool, Starved>
    ensures { IfOk result (λ b. b ≡ spec.can_become hs.now gs.now) }
{
    match all_need(alloc, hs, gs)? {
        None => Ok(false),
        Some(needs) => Ok(one_each(needs.as_slice())),
    }
}

/// The variable that is the only one of these terms.
fn only_var(ts: &[Term]) -> Option<&Var>
    ensures { option_copied result ≡ spec.only_var ts.now }
{
    match ts {
        [Term::Var(x)] => Some(x),
        _ => None,
    }
}

fn is_source_of(l: &Literal) -> bool
    ensures { result ≡ spec.is_source_of l.now }
{
    !l.neg && l.functor.as_slice() == b"source".as_slice() && l.annots.len() == 0
}

/// The variable of an annotation `source(V)`.
fn source_in(annot: &Term) -> Option<&Var>
    ensures { option_copied result ≡ spec.source_in (out-Term annot.now) }
{
    match annot {
        Term::Lit(l) => {
            if !is_source_of(l) {
                return None;
            }
            only_var(l.args.as_slice())
        }
        _ => None,
    }
}

/// Whether a variable stands in one of the arguments.
fn stands_in(args: &[Term], x: &Var) -> bool
    ensures { result ≡ list_any (occurs_in x.now) args.now }
{
    args.iter().any(|t| occurs(x, t))
}

/// Whether an annotation is `source(V)` with a variable that stands in none of the arguments.
fn is_free_source(annot: &Term, args: &[Term]) -> bool
    ensures { result ≡ spec.is_free_source args.now annot.now }
{
    match source_in(annot) {
        None => false,
        Some(x) => !stands_in(args, x),
    }
}

/// Whether a trigger with these annotations takes a goal from any source.
fn from_any(args: &[Term], annots: &[Term]) -> bool
    ensures { result ≡ spec.from_any args.now annots.now }
{
    match annots {
        [] => true,
        [a] => is_free_source(a, args),
        _ => false,
    }
}

/// Whether the literal of a trigger covers a goal.
pub fn covers(alloc: Global, h: &Literal, g: &Literal) -> Result<bool, Starved>
    ensures { IfOk result (λ b. b ≡ spec.covers h.now g.now) }
{
    if !same_head(h, g) {
        return Ok(false);
    }
    if !can_become(alloc, h.args.as_slice(), g.args.as_slice())? {
        return Ok(false);
    }
    Ok(from_any(h.args.as_slice(), h.annots.as_slice()))
}
