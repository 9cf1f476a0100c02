//! The goals that a clause posts, and where they stand.

ghost use Rattle.std.specs.Prelude.{◌≡◌, ◌++◌, drop, IfOk, OnOk};
ghost use Rattle.std.specs.Option.{option_to_list, option_copied};
ghost use Rattle.look_pieces.specs.Goals as spec;

use crate::clause::{ReadClause, has_plan};
use asl_lexer::token::{Place, Sign, Tok, Word};
use asl_lexer::words::word;
use asl_parser::sentence::Sentence;
use asl_term::copying::copy_literal;
use asl_term::sequence::{Seq, Starved};
use asl_term::syntax::{Formula, Kind, Literal, Literals};
use std::alloc::Global;

pub type Places = Seq<Place>;

/// The goal of an item.
fn goal_in(f: &Formula) -> Option<&Literal>
    ensures { option_copied result ≡ spec.goal_in f.now }
{
    match f {
        Formula::Achieve(l) => Some(l),
        Formula::Spawn(l) => Some(l),
        _ => None,
    }
}

fn put_goal(alloc: Global, all: &mut Literals, f: &Formula) -> Result<(), Starved>
    ensures { OnOk result (all.new ≡ all.old ++ option_to_list (spec.goal_in f.now)) }
{
    match goal_in(f) {
        Some(l) => all.push(copy_literal(alloc, l)?),
        None => Ok(()),
    }
}

/// The goals of a body.
#[tactic(auto, using(crate::proofs::Lists::goals_more, crate::proofs::Lists::goals_all))]
fn goals_in(alloc: Global, body: &[Formula]) -> Result<Literals, Starved>
    ensures { IfOk result (λ ls. ls ≡ spec.goals_in body.now) }
{
    let mut all = Seq::new(alloc);
    let mut rest = body;
    'items: while let Some((f, after)) = rest.split_first() {
        put_goal(alloc, &mut all, f)?;
        rest = after;
    }
    Ok(all)
}

/// The goals that a clause posts: an initial goal, or those of a plan's body.
pub fn goals_of(alloc: Global, s: &Sentence) -> Result<Literals, Starved>
    ensures { IfOk result (λ ls. ls ≡ spec.goals_of s.now) }
{
    match s {
        Sentence::Goal(l) => {
            let mut all = Seq::new(alloc);
            all.push(copy_literal(alloc, l)?)?;
            Ok(all)
        }
        Sentence::Plan(p) => goals_in(alloc, p.body.as_slice()),
        Sentence::Belief(_) => Ok(Seq::new(alloc)),
        Sentence::Rule(_) => Ok(Seq::new(alloc)),
    }
}

/// `!` or `!!`
fn is_bang(w: Word) -> bool
    ensures { result ≡ spec.is_bang w }
{
    match w {
        Word::Sign(s) => match s {
            Sign::Bang => true,
            Sign::Bangs => true,
            _ => false,
        },
        _ => false,
    }
}

/// `+` or `-`
fn is_change(w: Word) -> bool
    ensures { result ≡ spec.is_change w }
{
    match w {
        Word::Sign(s) => match s {
            Sign::Plus => true,
            Sign::Minus => true,
            _ => false,
        },
        _ => false,
    }
}

fn place_of(t: &Tok) -> Place
    ensures { result ≡ spec.place_of t.now }
{
    Place {
        at: t.at,
        line: t.line,
        column: t.column,
    }
}

/// Puts the place of the first token, where a goal begins there.
fn put_place(all: &mut Places, begins: bool, toks: &[Tok]) -> Result<(), Starved>
    ensures { OnOk result (all.new ≡ all.old ++ spec.place_if begins toks.now) }
{
    match toks {
        [first, ..] => {
            if begins {
                all.push(place_of(first))
            } else {
                Ok(())
            }
        }
        [] => Ok(()),
    }
}

/// The places of the goals of a clause with these tokens.
#[tactic(auto, using(crate::proofs::Lists::places_more, crate::proofs::Lists::places_all))]
pub fn goal_places(alloc: Global, toks: &[Tok]) -> Result<Places, Starved>
    ensures { IfOk result (λ ps. ps ≡ spec.goal_places toks.now) }
{
    let mut all = Seq::new(alloc);
    let mut change = false;
    let mut rest = toks;
    'toks: while let Some((t, after)) = rest.split_first() {
        put_place(&mut all, is_bang(word(t)) && !change, after)?;
        change = is_change(word(t));
        rest = after;
    }
    Ok(all)
}

/// A goal, and where it stands.
pub struct PlacedGoal {
    pub place: Place,
    pub goal: Literal,
}

/// By hand, so that who lets one go proves nothing of its parts.
impl Drop for PlacedGoal {
    fn drop(self) {
        let PlacedGoal { place: _, goal: _ } = self;
    }
}

pub type PlacedGoals = Seq<PlacedGoal>;

/// Puts a goal, unless there is a plan for it.
fn put_unplanned(
    alloc: Global,
    cs: &[ReadClause],
    p: &Place,
    g: &Literal,
    all: &mut PlacedGoals,
) -> Result<(), Starved>
    ensures { OnOk result (all.new ≡ all.old ++ spec.unplanned_one cs.now p.now g.now) }
{
    if has_plan(cs, true, Kind::Achieve, g) {
        return Ok(());
    }
    all.push(PlacedGoal {
        place: *p,
        goal: copy_literal(alloc, g)?,
    })
}

/// The next place, or the first of the clause where none is left.
fn next_place(first: Place, places: &[Place]) -> Place
    ensures { result ≡ spec.next_place first places.now }
{
    match places {
        [p, ..] => *p,
        [] => first,
    }
}

/// The places behind the next.
fn further_places(places: &[Place]) -> &[Place]
    ensures { result.now ≡ drop 1 places.now }
{
    match places {
        [_, rest @ ..] => rest,
        [] => places,
    }
}

/// The goals at their places, those for which the source has no plan.
#[tactic(auto, using(crate::proofs::Lists::unplanned_more, crate::proofs::Lists::unplanned_all))]
fn unplanned_at(
    alloc: Global,
    cs: &[ReadClause],
    first: Place,
    places: &[Place],
    goals: &[Literal],
) -> Result<PlacedGoals, Starved>
    ensures { IfOk result (λ all. all ≡ spec.unplanned_at cs.now first places.now goals.now) }
{
    let mut all = Seq::new(alloc);
    let mut ps = places;
    let mut gs = goals;
    'goals: while let Some((g, after)) = gs.split_first() {
        put_unplanned(alloc, cs, &next_place(first, ps), g, &mut all)?;
        ps = further_places(ps);
        gs = after;
    }
    Ok(all)
}

/// Where a clause begins; a list of no tokens begins no clause.
fn first_place(toks: &[Tok]) -> Place
    ensures { result ≡ spec.first_place toks.now }
{
    match toks {
        [first, ..] => place_of(first),
        [] => Place {
            at: 0,
            line: 1,
            column: 1,
        },
    }
}

fn unplanned_in(alloc: Global, cs: &[ReadClause], c: &ReadClause) -> Result<PlacedGoals, Starved>
    ensures { IfOk result (λ all. all ≡ spec.unplanned cs.now c.now) }
{
    let first = first_place(c.toks.as_slice());
    let places = goal_places(alloc, c.toks.as_slice())?;
    let goals = goals_of(alloc, &c.said)?;
    let all = unplanned_at(alloc, cs, first, places.as_slice(), goals.as_slice());
    drop(goals);
    drop(places);
    all
}

/// The goals of a clause for which the source has no plan, with their places. None of them is left out.
pub fn unplanned(alloc: Global, cs: &[ReadClause], c: &ReadClause) -> Result<PlacedGoals, Starved>
    ensures placed { IfOk result (λ all. all ≡ spec.unplanned cs.now c.now) }
    ensures whole { IfOk result (spec.AreAllPlanless cs.now c.now) }
{
    let all = unplanned_in(alloc, cs, c)?;
    Ok(all)
}
