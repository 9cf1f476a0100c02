//! The row of a message.

ghost use Rattle.std.specs.Prelude.{◌≡◌, ◌+◌, ◌<◌, ◌^◌, ◌-◌, IfOk, OnOk};
ghost use Rattle.asl_exec_circumstance.specs.Circumstance as parts;
ghost use Rattle.asl_kqml.specs.Receive as spec;

use crate::asks::{asks_all, asks_one};
use crate::believing::{tell, untell};
use crate::goals::{achieve, unachieve};
use crate::how::{asks_how, tell_how, untell_how};
use crate::replies::answers_ask;
use crate::took::{Took, by};
use asl_beliefs::base::BeliefBase;
use asl_exec_circumstance::content::{ground_literals, literal_of, literals_of};
use asl_exec_circumstance::parts::{Circumstance, Surroundings};
use asl_exec_circumstance::peers::{Peers, agent_name};
use asl_resolve::actions::Actions;
use asl_term::sequence::Starved;
use asl_term::syntax::{Term, Text};
use asl_unify::rename::rename_term;
use mas_mind::mind::{Message, Verb};
use std::alloc::Global;

/// The row of what is told: Tell, Reply, ReplyFail or Ignore.
fn tells<B: BeliefBase, A: Actions>(
    alloc: Global,
    k: &Surroundings<A>,
    name: &Text,
    p: &mut Circumstance<B>,
    m: &Message,
    content: &Term,
) -> Result<Took, Starved>
    ensures made { IfOk result (λ t. spec.tells (parts.seen_around A.solve k.now B.rules p.old) name.now (parts.seen B.beliefs p.old) m.now content.now
        ≡ spec.received (parts.seen B.beliefs p.new) t) }
    ensures rules { B.rules p.new.beliefs ≡ B.rules p.old.beliefs }
    ensures number { p.new.number ≡ p.old.number }
{
    if m.reply == 0 {
        let ls = ground_literals(alloc, content)?;
        return tell(alloc, name, p, ls);
    }
    answers_ask(alloc, k, p, m.reply, content)
}

/// The row of a message, by its verb. The content is renamed already.
fn of_verb<B: BeliefBase, A: Actions>(
    alloc: Global,
    k: &mut Surroundings<A>,
    me: u32,
    name: &Text,
    p: &mut Circumstance<B>,
    m: &Message,
    content: &Term,
) -> Result<Took, Starved>
    requires { p.old.number + k.old.budgets.tries < 2 ^ 64 - 1 }
    ensures made { IfOk result (λ t. spec.of_verb (parts.seen_around A.solve k.old B.rules p.old) me name.now
        (parts.seen B.beliefs p.old) m.now content.now m.now.verb
        ≡ spec.received (parts.seen B.beliefs p.new) t) }
    ensures plans { OnOk result (k.new.lib.plans ≡ (spec.learns k.old.lib.plans m.now.from content.now m.now.verb).plans) }
    ensures rules { B.rules p.new.beliefs ≡ B.rules p.old.beliefs }
    ensures number { p.new.number ≡ p.old.number }
    ensures actions { k.new.actions ≡ k.old.actions }
    ensures budgets { k.new.budgets ≡ k.old.budgets }
{
    match m.verb {
        Verb::Tell => tells(alloc, k, name, p, m, content),
        Verb::Untell => untell(alloc, name, p, literals_of(alloc, content)?),
        Verb::Achieve => achieve(alloc, name, p, literal_of(alloc, content)?),
        Verb::Unachieve => {
            let g = literal_of(alloc, content)?;
            let took = unachieve(alloc, p, &g);
            drop(g);
            took
        }
        Verb::AskOne => {
            let g = literal_of(alloc, content)?;
            let took = asks_one(alloc, k, me, p, m, &g);
            drop(g);
            took
        }
        Verb::AskAll => {
            let g = literal_of(alloc, content)?;
            let took = asks_all(alloc, k, me, p, m, &g);
            drop(g);
            took
        }
        Verb::TellHow => Ok(by(alloc, tell_how(alloc, &mut k.lib, m.from, content)?)),
        Verb::UntellHow => Ok(by(alloc, untell_how(alloc, &mut k.lib, m.from, content)?)),
        Verb::AskHow => {
            let g = literal_of(alloc, content)?;
            let took = asks_how(alloc, k, me, p, m, &g);
            drop(g);
            took
        }
    }
}

/// The row of a message. The counter rises by one.
#[tactic(auto, unfolding(crate::specs::Receive::receive, crate::specs::Receive::learned))]
pub fn receive<B: BeliefBase, A: Actions>(
    alloc: Global,
    k: &mut Surroundings<A>,
    peers: &Peers,
    p: &mut Circumstance<B>,
    m: &Message,
) -> Result<Took, Starved>
    requires { p.old.number + k.old.budgets.tries + 1 < 2 ^ 64 - 1 }
    ensures made { IfOk result (λ t. spec.receive (parts.seen_around A.solve k.old B.rules p.old) peers.now (parts.seen B.beliefs p.old) m.now
        ≡ spec.received (parts.seen B.beliefs p.new) t) }
    ensures plans { OnOk result (k.new.lib.plans ≡ spec.learned k.old.lib.plans p.old.number m.now) }
    ensures rules { B.rules p.new.beliefs ≡ B.rules p.old.beliefs }
    ensures number { p.new.number ≡ p.old.number + 1 }
    ensures actions { k.new.actions ≡ k.old.actions }
    ensures budgets { k.new.budgets ≡ k.old.budgets }
{
    let number = p.number;
    p.number += 1;
    let content = rename_term(alloc, &m.content, number)?;
    let took = match agent_name(alloc, peers.names.get(), m.from) {
        Ok(name) => of_verb(alloc, k, peers.me, &name, p, m, &content),
        Err(starved) => Err(starved),
    };
    drop(content);
    took
}
