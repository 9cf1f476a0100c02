//! The actions on other agents. Each is given all that an action may change.

ghost use Rattle.std.specs.Prelude.{◌≡◌, ◌≤◌, ◌+◌, ◌<◌, ◌^◌, ◌-◌, None, IfOk, slice_get};
ghost use Rattle.asl_exec_circumstance.specs.Circumstance as parts;
ghost use Rattle.asl_goals.specs.Inside as spec;

use crate::acted::{Acted, Why};
use crate::letter::{Letter, is_ask, letter_of, posted, spread};
use asl_beliefs::base::BeliefBase;
use asl_exec_circumstance::parts::{Circumstance, Surroundings};
use asl_exec_circumstance::peers::Peers;
use asl_intend::agenda::Ask;
use asl_intend::stack::Stack;
use asl_resolve::actions::Actions;
use asl_term::copying::copy;
use asl_term::sequence::{Seq, Starved};
use asl_term::syntax::{Arg, ArgOf, Term};
use mas_mind::mind::Messages;
use std::alloc::Global;
use std::mem;

/// The messages are sent.
fn sent<B: BeliefBase, A: Actions>(
    alloc: Global,
    k: &Surroundings<A>,
    p: &mut Circumstance<B>,
    asks: &mut u64,
    cur: &mut Stack,
    messages: Messages,
) -> Result<Acted, Starved>
    ensures did { IfOk result (λ a. spec.sent (parts.seen_around A.solve k.now B.rules p.old) asks.old (parts.seen B.beliefs p.old) cur.old messages
        ≡ spec.did (parts.seen B.beliefs p.new) asks.new cur.new a) }
    ensures beliefs { p.new.beliefs ≡ p.old.beliefs }
    ensures number { p.new.number ≡ p.old.number }
    ensures asks { asks.new ≡ asks.old }
{
    cur.remove_head();
    Ok(Acted::Sent(messages))
}

/// A letter that asks for no answer is sent.
fn sent_one<B: BeliefBase, A: Actions>(
    alloc: Global,
    k: &Surroundings<A>,
    p: &mut Circumstance<B>,
    asks: &mut u64,
    cur: &mut Stack,
    me: u32,
    l: Letter,
) -> Result<Acted, Starved>
    ensures did { IfOk result (λ a. spec.sent_asking (parts.seen_around A.solve k.now B.rules p.old) asks.old (parts.seen B.beliefs p.old) cur.old me l None
        ≡ spec.did (parts.seen B.beliefs p.new) asks.new cur.new a) }
    ensures beliefs { p.new.beliefs ≡ p.old.beliefs }
    ensures number { p.new.number ≡ p.old.number }
    ensures asks { asks.new ≡ asks.old }
{
    let mut messages = Seq::new(alloc);
    messages.push(posted(me, 0, l))?;
    sent(alloc, k, p, asks, cur, messages)
}

/// An ask is sent, and the current stack waits for the answer.
fn asked<B: BeliefBase, A: Actions>(
    alloc: Global,
    k: &Surroundings<A>,
    p: &mut Circumstance<B>,
    asks: &mut u64,
    cur: &mut Stack,
    me: u32,
    l: Letter,
    answer: &Term,
) -> Result<Acted, Starved>
    requires { asks.old < 2 ^ 64 - 1 }
    ensures did { IfOk result (λ a. spec.asked (parts.seen_around A.solve k.now B.rules p.old) asks.old (parts.seen B.beliefs p.old) cur.old me l answer.now
        ≡ spec.did (parts.seen B.beliefs p.new) asks.new cur.new a) }
    ensures beliefs { p.new.beliefs ≡ p.old.beliefs }
    ensures number { p.new.number ≡ p.old.number }
    ensures asks { asks.new ≤ asks.old + 1 }
{
    let number = *asks;
    let answer = match copy(alloc, answer) {
        Ok(answer) => answer,
        Err(starved) => {
            drop(l);
            return Err(starved);
        }
    };
    let stack = mem::replace(cur, Stack::new(alloc));
    let ask = Ask {
        number,
        answer,
        stack,
    };
    match p.agenda.hold_ask(ask) {
        Ok(()) => {
            *asks = number + 1;
            Ok(Acted::Asked(posted(me, number, l)))
        }
        Err(starved) => {
            drop(l);
            Err(starved)
        }
    }
}

/// A letter is sent, with the term that takes the answer as the fourth argument where one is asked for.
fn sent_letter<B: BeliefBase, A: Actions>(
    alloc: Global,
    k: &Surroundings<A>,
    p: &mut Circumstance<B>,
    asks: &mut u64,
    cur: &mut Stack,
    me: u32,
    args: &[Arg],
    l: Letter,
) -> Result<Acted, Starved>
    requires { asks.old < 2 ^ 64 - 1 }
    ensures did { IfOk result (λ a. spec.sent_asking (parts.seen_around A.solve k.now B.rules p.old) asks.old
        (parts.seen B.beliefs p.old) cur.old me l (slice_get args.now 3)
        ≡ spec.did (parts.seen B.beliefs p.new) asks.new cur.new a) }
    ensures beliefs { p.new.beliefs ≡ p.old.beliefs }
    ensures number { p.new.number ≡ p.old.number }
    ensures asks { asks.new ≤ asks.old + 1 }
{
    match args.get(3) {
        None => sent_one(alloc, k, p, asks, cur, me, l),
        Some(ArgOf::Plain(answer)) => {
            if is_ask(l.verb) {
                return asked(alloc, k, p, asks, cur, me, l, answer);
            }
            drop(l);
            Ok(Acted::Failed(Why::Argument(3)))
        }
        Some(ArgOf::Logic(_)) => {
            drop(l);
            Ok(Acted::Failed(Why::Argument(3)))
        }
    }
}

/// `.send`.
pub fn send<B: BeliefBase, A: Actions>(
    alloc: Global,
    k: &Surroundings<A>,
    peers: &Peers,
    p: &mut Circumstance<B>,
    asks: &mut u64,
    cur: &mut Stack,
    args: &[Arg],
) -> Result<Acted, Starved>
    requires { asks.old < 2 ^ 64 - 1 }
    ensures did { IfOk result (λ a. spec.send (parts.seen_around A.solve k.now B.rules p.old) asks.old (parts.seen B.beliefs p.old) cur.old peers.now args.now
        ≡ spec.did (parts.seen B.beliefs p.new) asks.new cur.new a) }
    ensures beliefs { p.new.beliefs ≡ p.old.beliefs }
    ensures number { p.new.number ≡ p.old.number }
    ensures asks { asks.new ≤ asks.old + 1 }
{
    match letter_of(alloc, peers.names.get(), args)? {
        Err(why) => Ok(Acted::Failed(why)),
        Ok(l) => sent_letter(alloc, k, p, asks, cur, peers.me, args, l),
    }
}

/// `.broadcast`.
pub fn broadcast<B: BeliefBase, A: Actions>(
    alloc: Global,
    k: &Surroundings<A>,
    peers: &Peers,
    p: &mut Circumstance<B>,
    asks: &mut u64,
    cur: &mut Stack,
    args: &[Arg],
) -> Result<Acted, Starved>
    ensures did { IfOk result (λ a. spec.broadcast (parts.seen_around A.solve k.now B.rules p.old) asks.old
        (parts.seen B.beliefs p.old) cur.old peers.now args.now
        ≡ spec.did (parts.seen B.beliefs p.new) asks.new cur.new a) }
    ensures beliefs { p.new.beliefs ≡ p.old.beliefs }
    ensures number { p.new.number ≡ p.old.number }
    ensures asks { asks.new ≡ asks.old }
{
    match spread(alloc, peers, args)? {
        Err(why) => Ok(Acted::Failed(why)),
        Ok(messages) => sent(alloc, k, p, asks, cur, messages),
    }
}

/// `.stopMAS`.
pub fn stop<B: BeliefBase, A: Actions>(
    k: &Surroundings<A>,
    p: &mut Circumstance<B>,
    asks: &mut u64,
    cur: &mut Stack,
) -> Result<Acted, Starved>
    ensures did { IfOk result (λ a. spec.stop (parts.seen_around A.solve k.now B.rules p.old) asks.old (parts.seen B.beliefs p.old) cur.old
        ≡ spec.did (parts.seen B.beliefs p.new) asks.new cur.new a) }
    ensures beliefs { p.new.beliefs ≡ p.old.beliefs }
    ensures number { p.new.number ≡ p.old.number }
    ensures asks { asks.new ≡ asks.old }
{
    cur.remove_head();
    Ok(Acted::Stop)
}
