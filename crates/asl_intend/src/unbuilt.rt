//! Matches with a literal into which substitutions are still to be put, which may make it larger than any memory. In
//! its place each pair of them becomes a question of the match.

ghost use Rattle.std.specs.Prelude.{◌≡◌, ◌+◌, ◌∷◌, ◌++◌, [], map, IfOk, OnOk, IfSome, true};
ghost use Rattle.std.specs.List.{AllByRecursion};
ghost use Rattle.asl_unify.specs.Applied.{put_literal};
ghost use Rattle.asl_unify.specs.Compare.{same_frame};
ghost use Rattle.asl_unify.specs.Matches.{matches};
ghost use Rattle.asl_unify.specs.Puts.{IsSubst};
ghost use Rattle.asl_unify.specs.Renamed.{with_vars};
ghost use Rattle.asl_unify.specs.Turns.{value_in};
ghost use Rattle.asl_unify.specs.Unifiers.{is_tidy};
ghost use Rattle.asl_term.specs.Trees.{all};
ghost use Rattle.asl_unify.specs.Logs.{later};
ghost use Rattle.asl_intend.specs.Stacks.{any_match, with_annots};
ghost use Rattle.asl_intend.specs.Unbuilt as spec;

use asl_term::compare::same_var;
use asl_term::name::name_of;
use asl_term::sequence::{Seq, Starved};
use asl_term::syntax::{Literal, LiteralOf, Term, Terms, Var};
use asl_unify::layers::same_frames;
use asl_unify::log::Later;
use asl_unify::matching::first_match;
use asl_unify::rename::{Renaming, replace_vars};
use asl_unify::subst::{Pair, no_subst};
use std::alloc::Global;

/// The variable that stands for one that no pair binds.
fn free_name(alloc: Global, v: &Var) -> Result<Var, Starved>
    ensures { IfOk result (λ r. r ≡ spec.free_name v.now) }
{
    let mut name = Seq::new(alloc);
    name.push(b'v')?;
    name.append(v.name.as_slice())?;
    Ok(Var {
        name: name_of(alloc, name.as_slice())?,
        number: v.number,
    })
}

/// The variable that stands for the term of a pair.
fn pair_name(alloc: Global, number: u64) -> Result<Var, Starved>
    ensures { IfOk result (λ r. r ≡ spec.pair_name number) }
{
    let name = name_of(alloc, b"p")?;
    Ok(Var { name, number })
}

/// The sum. No memory holds what a number of 64 bits can't count.
fn sum(a: u64, b: u64) -> Result<u64, Starved>
    ensures { IfOk result (λ n. n ≡ a + b) }
{
    a.checked_add(b).ok_or(Starved)
}

/// The number of the first pair of a variable, where the first of the pairs has a number.
fn place(first: u64, pairs: &[Pair], v: &Var) -> Result<Option<u64>, Starved>
    ensures { IfOk result (λ r. r ≡ spec.place first pairs.now v.now) }
{
    let mut number = first;
    for p in pairs {
        if same_var(&p.var, v) {
            return Ok(Some(number));
        }
        number = sum(number, 1)?;
    }
    Ok(None)
}

/// The variable that stands for another one under these substitutions.
fn name_in(
    alloc: Global,
    first: u64,
    pairs: &[Pair],
    rest: Later<'_>,
    v: &Var,
) -> Result<Var, Starved>
    ensures { IfOk result (λ r. r ≡ spec.name_in first (pairs.now ∷ later rest.entry) v.now) }
{
    let mut number = first;
    let mut at = pairs;
    let mut later = rest;
    loop {
        if let Some(k) = place(number, at, v)? {
            return pair_name(alloc, k);
        }
        let Some((next, more)) = later.split_first() else {
            return free_name(alloc, v);
        };
        number = sum(number, at.len() as u64)?;
        at = next.pairs();
        later = more;
    }
}

/// The names of variables that no pair binds.
#[derive(Clone, Copy)]
struct FreeNames {
    number: u64,
}

impl Renaming for FreeNames {
    ghost named = { λ _. spec.free_name };

    fn var(&self, alloc: Global, v: &Var) -> Result<Var, Starved> {
        free_name(alloc, v)
    }
}

/// The names of variables under substitutions, the first of whose pairs has a number.
#[derive(Clone, Copy)]
struct Names<'a> {
    first: u64,
    pairs: &'a [Pair],
    rest: Later<'a>,
}

impl Renaming for Names<'_> {
    ghost named = { λ n. spec.name_in n.first (n.pairs.now ∷ later n.rest) };

    fn var(&self, alloc: Global, v: &Var) -> Result<Var, Starved> {
        name_in(alloc, self.first, self.pairs, self.rest, v)
    }
}

/// Puts terms last, with other names for their variables.
fn push_named<N: Renaming>(
    alloc: Global,
    ts: &[Term],
    names: &N,
    to: &mut Terms,
) -> Result<(), Starved>
    ensures { OnOk result (to.new ≡ to.old ++ map (with_vars (N.named names.now)) ts.now) }
{
    for t in ts {
        to.push(replace_vars(alloc, t, names)?)?;
    }
    Ok(())
}

/// Puts the left sides of the questions of pairs last.
fn push_lefts(alloc: Global, first: u64, pairs: &[Pair], to: &mut Terms) -> Result<(), Starved>
    ensures { OnOk result (to.new ≡ to.old ++ spec.left_sides first pairs.now) }
{
    let mut number = first;
    for _pair in pairs {
        to.push(Term::Var(pair_name(alloc, number)?))?;
        number = sum(number, 1)?;
    }
    Ok(())
}

/// Puts the right sides of the questions of pairs last.
fn push_rights(alloc: Global, names: Names<'_>, to: &mut Terms) -> Result<(), Starved>
    ensures { OnOk result (to.new ≡ to.old ++ spec.right_sides
        (spec.name_in names.entry.first (names.entry.pairs.now ∷ later names.entry.rest)) names.entry.pairs.now) }
{
    for p in names.pairs {
        to.push(replace_vars(alloc, &p.term, &names)?)?;
    }
    Ok(())
}

/// Puts both sides of the questions of all pairs last.
fn push_questions(
    alloc: Global,
    pairs: &[Pair],
    rest: Later<'_>,
    lefts: &mut Terms,
    rights: &mut Terms,
) -> Result<(), Starved>
    requires { IsSubst pairs.now }
    ensures lefts { OnOk result (lefts.new ≡ lefts.old ++ spec.lefts 0 (pairs.now ∷ later rest.entry)) }
    ensures rights { OnOk result (rights.new ≡ rights.old ++ spec.rights 0 (pairs.now ∷ later rest.entry)) }
    ensures sound { OnOk result (AllByRecursion IsSubst (pairs.now ∷ later rest.entry)) }
{
    let mut number = 0;
    let mut at = pairs;
    let mut later = rest;
    loop {
        push_lefts(alloc, number, at, lefts)?;
        let names = Names {
            first: number,
            pairs: at,
            rest: later,
        };
        push_rights(alloc, names, rights)?;
        let Some((next, more)) = later.split_first() else {
            return Ok(());
        };
        number = sum(number, at.len() as u64)?;
        at = next.pairs();
        later = more;
    }
}

/// A literal of nothing.
fn blank(alloc: Global) -> Literal
    ensures { result ≡ spec.blank }
{
    LiteralOf {
        neg: false,
        functor: Seq::new(alloc),
        args: Seq::new(alloc),
        annots: Seq::new(alloc),
    }
}

/// Whether no list in a term has a tail and no items. None of a source has.
#[cycle(tidy)]
fn tidy(t: &Term) -> bool
    ensures { result ≡ is_tidy t.now }
{
    match t {
        Term::Num(_) | Term::Str(_) | Term::Var(_) => true,
        Term::Lit(l) => are_tidy(l.args.as_slice()) && are_tidy(l.annots.as_slice()),
        Term::List(l) => {
            are_tidy(l.items.as_slice())
                && match &l.tail {
                    None => true,
                    Some(tail) => tidy(tail.get()) && l.items.len() > 0,
                }
        }
        Term::Op(a) => tidy(a.left.get()) && tidy(a.right.get()),
    }
}

#[cycle(tidy)]
fn are_tidy(ts: &[Term]) -> bool
    ensures { result ≡ all (map is_tidy ts.now) }
{
    for t in ts {
        if !tidy(t) {
            return false;
        }
    }
    true
}

fn tidy_literal(l: &Literal) -> bool
    ensures { result ≡ spec.tidy_literal l.now }
{
    are_tidy(l.args.as_slice()) && are_tidy(l.annots.as_slice())
}

/// Whether two literals match, where no list in them has a tail and no items.
fn decided(alloc: Global, p: &Literal, q: &Literal) -> Result<Option<bool>, Starved>
    ensures { IfOk result (λ r. IfSome r (λ b. (b ≡ any_match (matches p.now q.now []))
        × (spec.tidy_literal p.now ≡ true) × (spec.tidy_literal q.now ≡ true))) }
{
    if !tidy_literal(p) || !tidy_literal(q) {
        return Ok(None);
    }
    let empty = no_subst(alloc);
    let found = first_match(alloc, p, q, &empty);
    drop(empty);
    match found {
        Ok(Some(s)) => {
            drop(s);
            Ok(Some(true))
        }
        Ok(None) => Ok(Some(false)),
        Err(e) => Err(e),
    }
}

/// Makes the two literals of the match out of blank ones.
fn fill(
    alloc: Global,
    g: &Literal,
    l: &Literal,
    pairs: &[Pair],
    rest: Later<'_>,
    more: &[Term],
    p: &mut Literal,
    q: &mut Literal,
) -> Result<(), Starved>
    requires sound { IsSubst pairs.now }
    requires pattern { p.old ≡ spec.blank }
    requires target { q.old ≡ spec.blank }
    ensures pattern { OnOk result (p.new ≡ spec.pattern (pairs.now ∷ later rest.entry) g.now) }
    ensures target { OnOk result (q.new ≡ spec.target (pairs.now ∷ later rest.entry) l.now more.now) }
    ensures sound { OnOk result (AllByRecursion IsSubst (pairs.now ∷ later rest.entry)) }
{
    let free = FreeNames { number: 0 };
    push_named(alloc, g.args.as_slice(), &free, &mut p.args)?;
    push_named(alloc, g.annots.as_slice(), &free, &mut p.annots)?;
    let names = Names {
        first: 0,
        pairs,
        rest,
    };
    push_named(alloc, l.args.as_slice(), &names, &mut q.args)?;
    push_named(alloc, l.annots.as_slice(), &names, &mut q.annots)?;
    push_named(alloc, more, &free, &mut q.annots)?;
    push_questions(alloc, pairs, rest, &mut p.args, &mut q.args)
}

/// The same as `matches_under`, where the frames agree, with blank literals at hand.
fn compared(
    alloc: Global,
    g: &Literal,
    l: &Literal,
    pairs: &[Pair],
    rest: Later<'_>,
    more: &[Term],
    p: &mut Literal,
    q: &mut Literal,
) -> Result<Option<bool>, Starved>
    requires sound { IsSubst pairs.now }
    requires pattern { p.old ≡ spec.blank }
    requires target { q.old ≡ spec.blank }
    requires frame { same_frame g.now l.now ≡ true }
    requires tidy { spec.tidy_literal g.now ≡ true }
    requires more { all (map is_tidy more.now) ≡ true }
    ensures { IfOk result (λ r. IfSome r (λ b. b
        ≡ any_match (matches g.now (with_annots more.now (put_literal (value_in pairs.now (later rest.entry)) l.now)) []))) }
{
    fill(alloc, g, l, pairs, rest, more, p, q)?;
    decided(alloc, p, q)
}

/// Whether a literal matches another one, once the substitutions are put into that and more annotations stand behind its
/// own. No answer where a list in the literals or in the pairs has a tail and no items.
pub fn matches_under(
    alloc: Global,
    g: &Literal,
    l: &Literal,
    pairs: &[Pair],
    rest: Later<'_>,
    more: &[Term],
) -> Result<Option<bool>, Starved>
    requires { IsSubst pairs.now }
    ensures { IfOk result (λ r. IfSome r (λ b. b
        ≡ any_match (matches g.now (with_annots more.now (put_literal (value_in pairs.now (later rest.entry)) l.now)) []))) }
{
    if !same_frames(g, l) {
        return Ok(Some(false));
    }
    if !tidy_literal(g) || !are_tidy(more) {
        return Ok(None);
    }
    let mut p = blank(alloc);
    let mut q = blank(alloc);
    let r = compared(alloc, g, l, pairs, rest, more, &mut p, &mut q);
    drop(p);
    drop(q);
    r
}
