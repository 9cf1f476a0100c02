//! Terms, lists, literals and calls, made of parts within the limits of trees.

ghost use Rattle.std.specs.Prelude.{◌≡◌, ◌++◌, [], ◌∷◌, IfOk};
ghost use Rattle.asl_parser_tree.specs.Holding as spec;
ghost use Rattle.asl_parser_tree.specs.Holding.{limited};

use crate::bounded::{
    Bounded, Held, HeldArg, HeldArgs, HeldExpr, HeldListing, HeldLiteral, HeldTerm, HeldTerms,
};
use crate::held::{as_formula, as_term, call_outline, hold, literal_outline, term_outline};
use crate::meaning::{Meaning, is_deed, is_pure, wants_formula};
use crate::plain::{are_plain, is_none, is_plain, is_plain_listing, is_plain_literal};
use asl_term::copying::copy_text;
use asl_term::sequence::{Seq, Starved};
use asl_term::syntax::{Arg, ArgOf, Args, CallOf, Listing, LiteralOf, Term, Terms, Text};
use std::alloc::Global;
use std::mem;

fn term_plain(t: &HeldTerm) -> bool
    ensures { result ≡ spec.term_plain t.now }
{
    match t {
        Bounded::Within(t) => is_plain(t),
        Bounded::Past(plain) => *plain,
    }
}

fn terms_plain(ts: &HeldTerms) -> bool
    ensures { result ≡ spec.terms_plain ts.now }
{
    match ts {
        Bounded::Within(ts) => are_plain(ts.as_slice()),
        Bounded::Past(plain) => *plain,
    }
}

fn listing_plain(l: &HeldListing) -> bool
    ensures { result ≡ spec.listing_plain l.now }
{
    match l {
        Bounded::Within(l) => is_plain_listing(l),
        Bounded::Past(plain) => *plain,
    }
}

fn with_term(ts: Terms, t: Term) -> Result<HeldTerms, Starved>
    ensures { IfOk result (λ r. r ≡ Bounded.Within (ts ++ t ∷ [])) }
{
    let mut all = ts;
    all.push(t)?;
    Ok(Bounded::Within(all))
}

/// Whether a literal holds no arithmetic.
pub fn literal_plain(l: &HeldLiteral) -> bool
    ensures { result ≡ spec.literal_plain l.now }
{
    match l {
        Bounded::Within(l) => is_plain_literal(l),
        Bounded::Past(o) => o.plain,
    }
}

// One more term.
fn put_term(ts: HeldTerms, t: HeldTerm) -> Result<HeldTerms, Starved>
    ensures { IfOk result (λ r. r ≡ spec.put_term ts t) }
{
    match (ts, t) {
        (Bounded::Within(ts), Bounded::Within(t)) => with_term(ts, t),
        (ts, t) => {
            let plain = terms_plain(&ts) && term_plain(&t);
            drop(ts);
            drop(t);
            Ok(Bounded::Past(plain))
        }
    }
}

/// As terms, where each is one.
#[tactic(auto, unfolding(crate::specs::Holding::terms_behind))]
pub fn as_terms(alloc: Global, all: Vec<Held>) -> Result<Option<HeldTerms>, Starved>
    ensures { IfOk result (λ r. r ≡ spec.as_terms limited all.items) }
{
    let mut terms = Bounded::Within(Seq::new(alloc));
    'meanings: for h in all {
        let Some(t) = as_term(h) else {
            return Ok(None);
        };
        terms = put_term(terms, t)?;
    }
    Ok(Some(terms))
}

fn joined_listing(items: Terms, l: Listing) -> Result<HeldListing, Starved>
    ensures { IfOk result (λ r. r ≡ Bounded.Within (record { items = items ++ l.items; tail = l.tail })) }
{
    let mut whole = l;
    let behind = mem::replace(&mut whole.items, items);
    whole.items.append_all(behind)?;
    Ok(Bounded::Within(whole))
}

/// The items of a list before what is behind them.
pub fn listed(items: HeldTerms, l: HeldListing) -> Result<HeldListing, Starved>
    ensures { IfOk result (λ r. r ≡ spec.listed items l) }
{
    match (items, l) {
        (Bounded::Within(items), Bounded::Within(l)) => joined_listing(items, l),
        (items, l) => {
            let plain = terms_plain(&items) && listing_plain(&l);
            drop(items);
            drop(l);
            Ok(Bounded::Past(plain))
        }
    }
}

fn terms_none(ts: &HeldTerms) -> bool
    ensures { result ≡ spec.terms_none ts.now }
{
    match ts {
        Bounded::Within(ts) => is_none(ts.as_slice()),
        Bounded::Past(_) => false,
    }
}

/// A literal, of its parts.
pub fn literal_of(neg: bool, functor: Text, args: HeldTerms, annots: HeldTerms) -> HeldLiteral
    ensures { result ≡ spec.literal_of neg functor args annots }
{
    match (args, annots) {
        (Bounded::Within(args), Bounded::Within(annots)) => Bounded::Within(LiteralOf {
            neg,
            functor,
            args,
            annots,
        }),
        (args, annots) => Bounded::Past(literal_outline(
            !neg && terms_none(&annots),
            terms_plain(&args) && terms_plain(&annots),
        )),
    }
}

/// A literal as an expression.
pub fn literal_held(l: HeldLiteral) -> Held
    ensures { result ≡ spec.literal_held limited l }
{
    match l {
        Bounded::Within(l) => hold(Meaning::Literal(l)),
        Bounded::Past(o) => Bounded::Past(o),
    }
}

/// A list as an expression.
pub fn listing_held(l: HeldListing) -> Held
    ensures { result ≡ spec.listing_held limited l }
{
    match l {
        Bounded::Within(l) => hold(Meaning::Term(Term::List(l))),
        Bounded::Past(plain) => Bounded::Past(term_outline(plain)),
    }
}

fn term_arg(t: HeldTerm) -> HeldArg
    ensures { result ≡ spec.term_arg t }
{
    match t {
        Bounded::Within(t) => Bounded::Within(ArgOf::Plain(t)),
        Bounded::Past(_) => Bounded::Past(()),
    }
}

fn formula_arg(e: HeldExpr) -> HeldArg
    ensures { result ≡ spec.formula_arg e }
{
    match e {
        Bounded::Within(e) => Bounded::Within(ArgOf::Logic(e)),
        Bounded::Past(_) => Bounded::Past(()),
    }
}

fn as_arg(logic: bool, h: Held) -> Option<HeldArg>
    ensures { result ≡ spec.as_arg limited logic h }
{
    if logic {
        Some(formula_arg(as_formula(h)?))
    } else {
        Some(term_arg(as_term(h)?))
    }
}

fn with_arg(args: Args, a: Arg) -> Result<HeldArgs, Starved>
    ensures { IfOk result (λ r. r ≡ Bounded.Within (args ++ a ∷ [])) }
{
    let mut all = args;
    all.push(a)?;
    Ok(Bounded::Within(all))
}

// One more argument.
fn put_arg(args: HeldArgs, a: HeldArg) -> Result<HeldArgs, Starved>
    ensures { IfOk result (λ r. r ≡ spec.put_arg args a) }
{
    match (args, a) {
        (Bounded::Within(args), Bounded::Within(a)) => with_arg(args, a),
        (args, a) => {
            drop(args);
            drop(a);
            Ok(Bounded::Past(()))
        }
    }
}

#[tactic(auto, unfolding(crate::specs::Holding::args_behind))]
fn as_args(alloc: Global, name: &Text, all: Vec<Held>) -> Result<Option<HeldArgs>, Starved>
    ensures { IfOk result (λ r. r ≡ spec.as_args limited name.now all.items) }
{
    let mut args = Bounded::Within(Seq::new(alloc));
    let mut place: u64 = 0;
    'meanings: for h in all {
        let Some(a) = as_arg(wants_formula(name, place), h) else {
            return Ok(None);
        };
        args = put_arg(args, a)?;
        place += 1;
    }
    Ok(Some(args))
}

fn call_of(alloc: Global, name: &Text, count: u64, args: HeldArgs) -> Result<Held, Starved>
    ensures { IfOk result (λ r. r ≡ spec.call_of limited name.now count args) }
{
    match args {
        Bounded::Within(args) => {
            let name = copy_text(alloc, name)?;
            Ok(hold(Meaning::Call(CallOf { name, args })))
        }
        Bounded::Past(()) => Ok(Bounded::Past(call_outline(is_pure(name, count)))),
    }
}

/// A call of an internal action, if it is known with so many arguments.
#[tactic(auto, unfolding(crate::specs::Holding::called))]
pub fn called(alloc: Global, name: &Text, all: Vec<Held>) -> Result<Option<Held>, Starved>
    ensures { IfOk result (λ r. r ≡ spec.called limited name.now all.items) }
{
    let count = all.len() as u64;
    if !is_pure(name, count) && !is_deed(name, count) {
        return Ok(None);
    }
    let Some(args) = as_args(alloc, name, all)? else {
        return Ok(None);
    };
    Ok(Some(call_of(alloc, name, count, args)?))
}
