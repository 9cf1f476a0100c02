//! What an agent sees of a fact.

ghost use Rattle.std.specs.Prelude.{◌≡◌, ◌++◌, ◌∷◌, [], false, IfOk, OnOk, OnErr};
ghost use Rattle.std.specs.List.{flat_map, list_any};
ghost use Rattle.std.specs.Option.{option_copied, option_map, option_to_list};
ghost use Rattle.std.specs.Str.{bytes_eq};
ghost use Rattle.asl_term.specs.declared.syntax.Term.TheViews.{out-Term};
ghost use Rattle.asl_term.specs.declared.syntax.LiteralOf.{LiteralOf};
ghost use Rattle.asl_term.specs.declared.syntax.Term.{Term};
ghost use Rattle.mas_world.specs.Facts as facts;
ghost use Rattle.mas_world.specs.Seen as spec;
ghost use Rattle.mas_world.specs.inner.Sights as inner;

use crate::facts::{add_new, is_fact};
use asl_term::compare::same_text;
use asl_term::copying::copy_literal;
use asl_term::names::{Names, find};
use asl_term::sequence::{Seq, Starved};
use asl_term::syntax::{Literal, Literals, Term, Text};
use std::alloc::Global;

/// The literal that a term is.
fn literal_in(t: &Term) -> Option<&Literal>
    ensures { spec.literal_in (out-Term t.now) ≡ option_map (λ l. l.now) result }
{
    match t {
        Term::Lit(l) => Some(l),
        Term::Num(_) => None,
        Term::Str(_) => None,
        Term::Var(_) => None,
        Term::List(_) => None,
        Term::Op(_) => None,
    }
}

fn atom_named(l: &Literal) -> Option<&Text>
    ensures { spec.atom_named l.now.neg l.now.functor l.now.args l.now.annots ≡ option_map (λ n. n.now) result }
{
    if l.neg {
        return None;
    }
    if l.args.len() > 0 {
        return None;
    }
    if l.annots.len() > 0 {
        return None;
    }
    Some(&l.functor)
}

/// The name of the atom that a term is.
fn atom_in(t: &Term) -> Option<&Text>
    ensures { spec.atom_in (out-Term t.now) ≡ option_map (λ n. n.now) result }
{
    match t {
        Term::Lit(l) => atom_named(l),
        Term::Num(_) => None,
        Term::Str(_) => None,
        Term::Var(_) => None,
        Term::List(_) => None,
        Term::Op(_) => None,
    }
}

/// Who alone sees a fact, and as what.
#[derive(Clone, Copy)]
struct Told<'a> {
    agent: &'a Text,
    fact: &'a Literal,
}

fn private_pair<'a>(a: &'a Term, f: &'a Term) -> Option<Told<'a>>
    ensures { spec.private_of (spec.atom_in (out-Term a.now)) (spec.literal_in (out-Term f.now)) ≡ option_map inner.private result }
{
    match atom_in(a) {
        None => None,
        Some(agent) => match literal_in(f) {
            None => None,
            Some(fact) => Some(Told { agent, fact }),
        },
    }
}

fn private_args(args: &[Term]) -> Option<Told<'_>>
    ensures { spec.private_args args.now ≡ option_map inner.private result }
{
    let Some((a, rest)) = args.split_first() else {
        return None;
    };
    let Some((f, rest)) = rest.split_first() else {
        return None;
    };
    if rest.len() > 0 {
        return None;
    }
    private_pair(a, f)
}

/// What `for(a, f)`, with an atom and a literal, says.
fn who_sees(l: &Literal) -> Option<Told<'_>>
    ensures { spec.private_fact l.now ≡ option_map inner.private result }
{
    if l.neg {
        return None;
    }
    if l.functor.as_slice() == b"for".as_slice() {
        return private_args(l.args.as_slice());
    }
    None
}

/// Whether the functor is hidden.
#[tactic(auto, using(crate::proofs::Functors::none_is, crate::proofs::Functors::some_is))]
fn is_hidden(hidden: &Names, functor: &Text) -> bool
    ensures { result ≡ list_any (bytes_eq functor.now) hidden.now }
{
    match find(hidden, functor) {
        None => false,
        Some(_) => true,
    }
}

/// What an agent sees of a fact, if it sees it.
fn sight<'a>(hidden: &Names, agent: &Text, l: &'a Literal) -> Option<&'a Literal>
    ensures { spec.shown hidden.now agent.now l.now ≡ option_to_list (option_copied result) }
{
    if is_hidden(hidden, &l.functor) {
        return None;
    }
    match who_sees(l) {
        None => Some(l),
        Some(p) => {
            if same_text(p.agent, agent) {
                Some(p.fact)
            } else {
                None
            }
        }
    }
}

/// Puts last what an agent sees of a fact, where it is not there yet.
fn see(
    alloc: Global,
    hidden: &Names,
    agent: &Text,
    l: &Literal,
    seen: &mut Literals,
) -> Result<(), Starved>
    ensures ok { OnOk result (seen.new ≡ seen.old ++ facts.news seen.old (spec.shown hidden.now agent.now l.now)) }
    ensures err { OnErr result (seen.new ≡ seen.old) }
{
    match sight(hidden, agent, l) {
        None => Ok(()),
        Some(f) => add_new(alloc, seen, f),
    }
}

/// Puts last what an agent sees of these facts, each once, where it is not there yet.
pub fn see_all(
    alloc: Global,
    hidden: &Names,
    agent: &Text,
    ls: &[Literal],
    seen: &mut Literals,
) -> Result<(), Starved>
    ensures ok { OnOk result (seen.new ≡ seen.old ++ facts.news seen.old (flat_map (spec.shown hidden.now agent.now) ls.now)) }
    ensures err { OnErr result (seen.new ≡ seen.old) }
{
    let before = seen.len();
    for l in ls {
        match see(alloc, hidden, agent, l, seen) {
            Ok(()) => {}
            Err(starved) => {
                seen.truncate(before);
                return Err(starved);
            }
        }
    }
    Ok(())
}

/// Puts a fact last that is seen as it is, where it was not told before.
#[tactic(auto, using(crate::proofs::Staying::either))]
fn see_open(
    alloc: Global,
    l: &Literal,
    seen: &mut Literals,
    told: &[Literal],
) -> Result<(), Starved>
    requires { inner.Agree seen.old told.now l.now }
    ensures seen { OnOk result (seen.new ≡ seen.old ++ facts.news seen.old (l.now ∷ [])) }
    ensures agree { OnOk result ((x : LiteralOf Term) → facts.same_fact x l.now ≡ false → inner.Agree seen.old told.now x → inner.Agree seen.new told.now x) }
{
    if !is_fact(told, l) {
        seen.push(copy_literal(alloc, l)?)?;
    }
    Ok(())
}

/// Puts a literal last that was told the agent, and keeps it with those that were told, where it is not there yet.
#[tactic(auto, using(crate::proofs::Staying::either))]
fn see_told(
    alloc: Global,
    f: &Literal,
    seen: &mut Literals,
    told: &mut Literals,
) -> Result<(), Starved>
    ensures seen { OnOk result (seen.new ≡ seen.old ++ facts.news seen.old (f.now ∷ [])) }
    ensures agree { OnOk result ((x : LiteralOf Term) → inner.Agree seen.old told.old x → inner.Agree seen.new told.new x) }
{
    if !is_fact(seen.as_slice(), f) {
        seen.push(copy_literal(alloc, f)?)?;
        told.push(copy_literal(alloc, f)?)?;
    }
    Ok(())
}

/// The same as `see`, for a fact that is not seen yet but where it was told.
fn see_fresh(
    alloc: Global,
    hidden: &Names,
    agent: &Text,
    l: &Literal,
    seen: &mut Literals,
    told: &mut Literals,
) -> Result<(), Starved>
    requires { inner.Agree seen.old told.old l.now }
    ensures seen { OnOk result (seen.new ≡ seen.old ++ facts.news seen.old (spec.shown hidden.now agent.now l.now)) }
    ensures agree { OnOk result ((x : LiteralOf Term) → facts.same_fact x l.now ≡ false → inner.Agree seen.old told.old x → inner.Agree seen.new told.new x) }
{
    if is_hidden(hidden, &l.functor) {
        return Ok(());
    }
    match who_sees(l) {
        None => see_open(alloc, l, seen, told.as_slice()),
        Some(p) => {
            if same_text(p.agent, agent) {
                see_told(alloc, p.fact, seen, told)
            } else {
                Ok(())
            }
        }
    }
}

/// What an agent sees of distinct facts, each once. A fact can repeat only what was told before it, so that no fact is
/// compared with all those that are seen.
pub fn first_seen(
    alloc: Global,
    hidden: &Names,
    agent: &Text,
    ls: &[Literal],
) -> Result<Literals, Starved>
    requires { facts.AreFacts ls.now }
    ensures { IfOk result (λ r. r ≡ facts.news [] (flat_map (spec.shown hidden.now agent.now) ls.now)) }
{
    let mut seen = Seq::new(alloc);
    let mut told = Seq::new(alloc);
    for l in ls {
        see_fresh(alloc, hidden, agent, l, &mut seen, &mut told)?;
    }
    Ok(seen)
}
