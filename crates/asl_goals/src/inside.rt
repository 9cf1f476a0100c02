//! The deed of a name.

ghost use Rattle.std.specs.Prelude.{◌≡◌, ◌≤◌, ◌+◌, ◌<◌, ◌^◌, ◌-◌, IfOk};
ghost use Rattle.asl_exec_circumstance.specs.Circumstance as parts;
ghost use Rattle.asl_goals.specs.Inside as spec;
ghost use Rattle.asl_goals.specs.Sending as sending;

use crate::acted::{Acted, Why};
use crate::goals::{abolish, drop_desire, drop_intention, ended, looked_up};
use crate::letter::{literal_of, term_at};
use crate::sending::{broadcast, send, stop};
use crate::sweep::Way;
use asl_beliefs::base::BeliefBase;
use asl_exec_circumstance::parts::{Circumstance, Surroundings};
use asl_exec_circumstance::peers::Peers;
use asl_intend::stack::Stack;
use asl_resolve::actions::Actions;
use asl_term::sequence::Starved;
use asl_term::syntax::{Arg, Call, Literal};
use asl_term_actions::action::{Action, Deed, LiteralDeed};
use asl_term_actions::named::named;
use std::alloc::Global;

/// A deed about a literal.
fn about<B: BeliefBase, A: Actions>(
    alloc: Global,
    k: &Surroundings<A>,
    p: &mut Circumstance<B>,
    asks: &mut u64,
    cur: &mut Stack,
    deed: LiteralDeed,
    g: &Literal,
) -> Result<Acted, Starved>
    ensures did { IfOk result (λ a. spec.about (parts.seen_around A.solve k.now B.rules p.old) asks.old (parts.seen B.beliefs p.old) cur.old deed g.now
        ≡ spec.did (parts.seen B.beliefs p.new) asks.new cur.new a) }
    ensures rules { B.rules p.new.beliefs ≡ B.rules p.old.beliefs }
    ensures number { p.new.number ≡ p.old.number }
    ensures asks { asks.new ≡ asks.old }
{
    match deed {
        LiteralDeed::DropIntention => drop_intention(alloc, k, p, asks, cur, g),
        LiteralDeed::DropDesire => drop_desire(alloc, k, p, asks, cur, g),
        LiteralDeed::SucceedGoal => ended(alloc, k, p, asks, cur, Way::Succeed, g),
        LiteralDeed::FailGoal => ended(alloc, k, p, asks, cur, Way::Fail, g),
        LiteralDeed::Intend => looked_up(alloc, k, p, asks, cur, false, g),
        LiteralDeed::Desire => looked_up(alloc, k, p, asks, cur, true, g),
        LiteralDeed::Abolish => abolish(alloc, k, p, asks, cur, g),
    }
}

/// A deed about the literal that is its first argument.
fn about_term<B: BeliefBase, A: Actions>(
    alloc: Global,
    k: &Surroundings<A>,
    p: &mut Circumstance<B>,
    asks: &mut u64,
    cur: &mut Stack,
    deed: LiteralDeed,
    args: &[Arg],
) -> Result<Acted, Starved>
    ensures did { IfOk result (λ a. spec.about_term (parts.seen_around A.solve k.now B.rules p.old) asks.old
        (parts.seen B.beliefs p.old) cur.old deed (sending.term_at args.now 0)
        ≡ spec.did (parts.seen B.beliefs p.new) asks.new cur.new a) }
    ensures rules { B.rules p.new.beliefs ≡ B.rules p.old.beliefs }
    ensures number { p.new.number ≡ p.old.number }
    ensures asks { asks.new ≡ asks.old }
{
    match term_at(args, 0) {
        None => Ok(Acted::Failed(Why::Argument(0))),
        Some(t) => match literal_of(t) {
            None => Ok(Acted::Failed(Why::Argument(0))),
            Some(g) => about(alloc, k, p, asks, cur, deed, g),
        },
    }
}

/// A deed with its arguments.
fn deed_done<B: BeliefBase, A: Actions>(
    alloc: Global,
    k: &Surroundings<A>,
    peers: &Peers,
    p: &mut Circumstance<B>,
    asks: &mut u64,
    cur: &mut Stack,
    deed: Deed,
    args: &[Arg],
) -> Result<Acted, Starved>
    requires { asks.old < 2 ^ 64 - 1 }
    ensures did { IfOk result (λ a. spec.deed_done (parts.seen_around A.solve k.now B.rules p.old) asks.old
        (parts.seen B.beliefs p.old) cur.old peers.now args.now deed
        ≡ spec.did (parts.seen B.beliefs p.new) asks.new cur.new a) }
    ensures rules { B.rules p.new.beliefs ≡ B.rules p.old.beliefs }
    ensures number { p.new.number ≡ p.old.number }
    ensures asks { asks.new ≤ asks.old + 1 }
{
    match deed {
        Deed::OnLiteral(deed) => about_term(alloc, k, p, asks, cur, deed, args),
        Deed::Send => send(alloc, k, peers, p, asks, cur, args),
        Deed::Broadcast => broadcast(alloc, k, peers, p, asks, cur, args),
        Deed::StopMas => stop(k, p, asks, cur),
    }
}

/// The internal action that the head of the current stack is, applied and settled. A number of an ask is used up for each ask
/// that is sent, and for nothing else.
#[tactic(auto, unfolding(crate::specs::Inside::act_inside))]
pub fn act_inside<B: BeliefBase, A: Actions>(
    alloc: Global,
    k: &Surroundings<A>,
    peers: &Peers,
    p: &mut Circumstance<B>,
    asks: &mut u64,
    cur: &mut Stack,
    c: &Call,
) -> Result<Acted, Starved>
    requires { asks.old < 2 ^ 64 - 1 }
    ensures did { IfOk result (λ a. spec.act_inside (parts.seen_around A.solve k.now B.rules p.old) peers.now asks.old
        (parts.seen B.beliefs p.old) cur.old c.now
        ≡ spec.did (parts.seen B.beliefs p.new) asks.new cur.new a) }
    ensures rules { B.rules p.new.beliefs ≡ B.rules p.old.beliefs }
    ensures number { p.new.number ≡ p.old.number }
    ensures asks { asks.new ≤ asks.old + 1 }
{
    match named(&c.name) {
        Some(Action::Does(deed)) => {
            deed_done(alloc, k, peers, p, asks, cur, deed, c.args.as_slice())
        }
        Some(Action::Collects(_) | Action::Looks(_) | Action::Print | Action::Fail) | None => {
            Ok(Acted::Failed(Why::Argument(0)))
        }
    }
}
