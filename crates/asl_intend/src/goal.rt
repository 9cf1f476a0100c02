//! Goals named by a literal.

ghost use Rattle.std.specs.Prelude.{◌≡◌, [], IfOk};
ghost use Rattle.asl_unify.specs.Matches.{matches};
ghost use Rattle.asl_intend.specs.Entries as spec;
ghost use Rattle.asl_intend.specs.Stacks as stacks;

use asl_term::sequence::Starved;
use asl_term::syntax::{Kind, Literal, Trigger};
use asl_unify::layers::same_frames;
use asl_unify::matching::first_match;
use asl_unify::subst::no_subst;
use std::alloc::Global;

/// Whether the literal may name the goal of a trigger into which substitutions are still to be put.
pub fn can_name(g: &Literal, t: &Trigger) -> bool
    ensures { result ≡ spec.can_name g.now t.now }
{
    let achieve = match t.kind {
        Kind::Achieve => true,
        Kind::Belief => false,
        Kind::Test => false,
    };
    t.add && achieve && same_frames(g, &t.lit)
}

/// Whether two literals match. One match is sought, and no other.
#[tactic(auto, using(crate::proofs::Logs::first_is_any))]
pub fn some_match(alloc: Global, p: &Literal, q: &Literal) -> Result<bool, Starved>
    ensures { IfOk result (λ r. r ≡ stacks.any_match (matches p.now q.now [])) }
{
    let empty = no_subst(alloc);
    let found = first_match(alloc, p, q, &empty);
    drop(empty);
    match found {
        Ok(s) => {
            let there = s.is_some();
            drop(s);
            Ok(there)
        }
        Err(e) => Err(e),
    }
}

/// Whether the literal matches the goal that a trigger `+!h` is about.
pub fn names_goal(alloc: Global, g: &Literal, t: &Trigger) -> Result<bool, Starved>
    ensures { IfOk result (λ r. r ≡ stacks.names_goal g.now t.now) }
{
    if !t.add {
        return Ok(false);
    }
    match t.kind {
        Kind::Belief => Ok(false),
        Kind::Test => Ok(false),
        Kind::Achieve => some_match(alloc, g, &t.lit),
    }
}
