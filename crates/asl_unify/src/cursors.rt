//! Matches of literals in portions: a cursor says where the search for those of the annotations stands.

ghost use Rattle.std.specs.Prelude.{◌≡◌, ◌++◌, [], ◌∷◌, Some, None, Option, List, IfOk, drop, length};
ghost use Rattle.std.specs.List.{AllByRecursion};
ghost use Rattle.asl_unify.specs.declared.subst.Pair.{Pair};
ghost use Rattle.asl_unify.specs.Puts.{IsSubst};
ghost use Rattle.asl_unify.specs.Matches.{behind};
ghost use Rattle.asl_unify.specs.Cursors as spec;
ghost use Rattle.asl_unify.specs.Cursors.{annots_left, matches_left, meets, term_before};
ghost use Rattle.asl_unify.specs.inner.Tries.{AreLinked, pending, places};

use crate::layers::same_frames;
use crate::matching::{Frame, Substs, all_behind, attempt, push_frame, try_next};
use crate::solve::{View, Work};
use crate::subst::{PairLists, Subst};
use asl_term::sequence::{Seq, Starved};
use asl_term::syntax::{Literal, Numbers, Term};
use std::alloc::Global;

/// For each pattern in hand the place of the held term that is next for it.
pub type Cursor = Numbers;

/// So many matches are made at once.
const PORTION: u64 = 16;

/// The next matches, in order, as the pairs that each puts behind those of a substitution, and where those that are left begin.
#[derive(Drop)]
pub struct Portion {
    pub found: PairLists,
    pub rest: Cursor,
}

/// The same as substitutions.
#[derive(Drop)]
struct Hits {
    found: Substs,
    rest: Cursor,
}

/// Where all matches are left.
pub fn start(alloc: Global) -> Result<Cursor, Starved>
    ensures { IfOk result (λ r. r ≡ spec.start) }
{
    let mut places = Seq::new(alloc);
    places.push(0)?;
    Ok(places)
}

/// No matches, and none left.
pub fn no_portion(alloc: Global) -> Portion
    ensures found { result.found ≡ [] }
    ensures rest { result.rest ≡ [] }
{
    Portion {
        found: Seq::new(alloc),
        rest: Seq::new(alloc),
    }
}

/// The substitution to which the pattern of a level comes with the held term before a place.
fn met_before(
    alloc: Global,
    patterns: &[Term],
    level: usize,
    held: &[Term],
    place: usize,
    s: &Subst,
) -> Result<Option<Subst>, Starved>
    ensures { IfOk result (λ r. r ≡ meets (drop level patterns.now) (term_before held.now place) s.now) }
{
    if place == 0 {
        return Ok(None);
    }
    let Some(p) = patterns.get(level) else {
        return Ok(None);
    };
    let Some(q) = held.get(place - 1) else {
        return Ok(None);
    };
    let work = Work::Two(View::Whole(p), View::Whole(q));
    attempt(alloc, work, s)
}

/// One frame more, where there is a substitution for it, and the substitution for the next.
fn climb(
    alloc: Global,
    patterns: &[Term],
    held: &[Term],
    place: usize,
    top: Option<Subst>,
    stack: &mut Vec<Frame>,
) -> Result<Option<Subst>, Starved>
    ensures none { IfOk result (λ r. top ≡ None → (r ≡ None) × (stack.new.items ≡ stack.old.items)) }
    ensures next { IfOk result (λ r. (t : List Pair) → top ≡ Some t
        → r ≡ meets (drop (length stack.old.items) patterns.now) (term_before held.now place) t) }
    ensures frame { IfOk result (λ _. (t : List Pair) → top ≡ Some t
        → stack.new.items ≡ stack.old.items ++ record { subst = t; place = place } ∷ []) }
{
    let Some(subst) = top else {
        return Ok(None);
    };
    let next = met_before(alloc, patterns, stack.len(), held, place, &subst)?;
    push_frame(stack, subst, place)?;
    Ok(next)
}

/// The frames that stand at the places of a cursor.
fn stack_at(
    alloc: Global,
    patterns: &[Term],
    held: &[Term],
    at: &[u64],
    first: Subst,
) -> Result<Vec<Frame>, Starved>
    ensures linked { IfOk result (λ r. (last : Option (List Pair)) × AreLinked patterns.now held.now (Some first) r.items last) }
    ensures left { IfOk result (λ r. pending patterns.now held.now r.items ≡ annots_left patterns.now held.now first at.now) }
{
    let mut stack: Vec<Frame> = Vec::new(alloc);
    let mut top = Some(first);
    for place in at {
        top = climb(alloc, patterns, held, *place as usize, top, &mut stack)?;
    }
    Ok(stack)
}

/// The cursor of these frames.
fn cursor_of(alloc: Global, stack: &[Frame]) -> Result<Cursor, Starved>
    ensures { IfOk result (λ r. r ≡ places stack.now) }
{
    let mut r = Seq::new(alloc);
    for frame in stack {
        r.push(frame.place as u64)?;
    }
    Ok(r)
}

/// The next matches from a first substitution and a cursor on, depth first. The level of a frame is its place in the stack.
fn hits_from(
    alloc: Global,
    patterns: &[Term],
    held: &[Term],
    at: &[u64],
    first: Subst,
) -> Result<Hits, Starved>
    ensures value { IfOk result (λ r. r.found ++ annots_left patterns.now held.now first r.rest ≡ annots_left patterns.now held.now first at.now) }
    ensures some { IfOk result (λ r. r.found ≡ [] → r.rest ≡ []) }
{
    let mut found = Seq::new(alloc);
    let mut stack = stack_at(alloc, patterns, held, at, first)?;
    'turns: while found.len() < PORTION {
        let Some(top) = stack.pop() else {
            return Ok(Hits {
                found,
                rest: Seq::new(alloc),
            });
        };
        let Some(p) = patterns.get(stack.len()) else {
            found.push(top.subst)?;
            continue;
        };
        try_next(alloc, p, held, top, &mut stack)?;
    }
    let rest = cursor_of(alloc, stack.as_slice())?;
    Ok(Hits { found, rest })
}

/// The next matches of two literals from a cursor on. None comes back only where none is left.
pub fn match_portion(
    alloc: Global,
    p: &Literal,
    q: &Literal,
    s: &Subst,
    at: &[u64],
) -> Result<Portion, Starved>
    ensures value { IfOk result (λ r. behind s.now r.found ++ matches_left p.now q.now s.now r.rest ≡ matches_left p.now q.now s.now at.now) }
    ensures sound { IfOk result (λ r. AllByRecursion (λ more. IsSubst (s.now ++ more)) r.found) }
    ensures some { IfOk result (λ r. r.found ≡ [] → r.rest ≡ []) }
{
    if !same_frames(p, q) {
        return Ok(no_portion(alloc));
    }
    let work = Work::Args(p.args.as_slice(), q.args.as_slice());
    let Some(first) = attempt(alloc, work, s)? else {
        return Ok(no_portion(alloc));
    };
    let hits = hits_from(alloc, p.annots.as_slice(), q.annots.as_slice(), at, first)?;
    let Hits { found, rest } = hits;
    let pairs = all_behind(alloc, found.as_slice(), s)?;
    Ok(Portion { found: pairs, rest })
}
