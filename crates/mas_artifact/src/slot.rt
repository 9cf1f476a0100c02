//! A slot: idle, or held by an agent.

ghost use Rattle.std.specs.Prelude.{◌≡◌, IfOk, OnErr};
ghost use Rattle.mas_artifact.specs.Opening.{first_slot};
ghost use Rattle.mas_artifact.specs.States as states;

use crate::frames::{atom, is_call, unary};
use asl_term::compare::same_text;
use asl_term::copying::{copy_text, text_of};
use asl_term::sequence::Starved;
use asl_term::syntax::{Literal, Literals, Term, Text};
use mas_mind::mind::Feedback;
use mas_world::artifact::Artifact;
use std::alloc::Global;
use std::marker::Model;

/// Its name, and the agent that holds it, if one does.
pub struct Slot {
    name: Text,
    holder: Option<Text>,
}

/// By hand, so that a crate above that lets one go proves nothing of its parts.
impl Drop for Slot {
    fn drop(self) {
        let Slot { name: _, holder: _ } = self;
    }
}

impl Model for Slot {
    ghost use Rattle.mas_artifact.specs.States.{slot_facts};
    ghost use Rattle.mas_artifact.specs.Tables.{slot_table};
    ghost use Rattle.mas_world.specs.Worlds.{Used, used};
    ghost use Rattle.asl_term.specs.contracts.syntax.Term as t;
    ghost use Rattle.asl_term.specs.contracts.syntax.Expr as e;
    ghost use Rattle.std.specs.Coded.{codes};

    ghost Value = { Used };

    ghost coded = { Prim.hlevel (codes, t.the_row.coded, e.the_row.coded) };

    ghost view = { λ s. used s.name slot_table (slot_facts s.holder) };
}

impl Slot {
    /// An idle slot.
    pub(crate) fn new(alloc: Global) -> Result<Slot, Starved>
        ensures { IfOk result (λ s. s ≡ first_slot) }
    {
        let name = text_of(alloc, b"slot")?;
        Ok(Slot { name, holder: None })
    }
}

/// Idle, or held by this agent, as a term.
fn state(alloc: Global, holder: &Option<Text>) -> Result<Term, Starved>
    ensures { IfOk result (λ t. t ≡ states.slot_state holder.now) }
{
    match holder {
        None => atom(alloc, b"idle"),
        Some(name) => {
            let held = atom(alloc, name.as_slice())?;
            Ok(Term::Lit(unary(alloc, b"held", held)?))
        }
    }
}

/// An idle slot is taken.
fn take(alloc: Global, holder: &mut Option<Text>, agent: &Text) -> Result<Feedback, Starved>
    ensures acted { IfOk result (λ f. (f, holder.new) ≡ states.taken holder.old agent.now) }
    ensures refused { OnErr result (holder.new ≡ holder.old) }
{
    match holder {
        Some(_) => Ok(Feedback::Failed),
        None => {
            *holder = Some(copy_text(alloc, agent)?);
            Ok(Feedback::Done)
        }
    }
}

/// The holder gives it back.
fn give(holder: &mut Option<Text>, agent: &Text) -> Feedback
    ensures { (result, holder.new) ≡ states.given holder.old agent.now }
{
    match holder {
        None => Feedback::Failed,
        Some(name) => {
            if same_text(agent, name) {
                *holder = None;
                Feedback::Done
            } else {
                Feedback::Failed
            }
        }
    }
}

fn act(
    alloc: Global,
    holder: &mut Option<Text>,
    agent: &Text,
    action: &Literal,
) -> Result<Feedback, Starved>
    ensures acted { IfOk result (λ f. (f, holder.new) ≡ states.slot_acted holder.old agent.now action.now) }
    ensures refused { OnErr result (holder.new ≡ holder.old) }
{
    if is_call(action, b"slot_take", 0) {
        return take(alloc, holder, agent);
    }
    if is_call(action, b"slot_give", 0) {
        return Ok(give(holder, agent));
    }
    Ok(Feedback::Failed)
}

impl Artifact for Slot {
    ghost named = { λ s. s.name };

    ghost table = { λ s. s.segment.acts };

    ghost facts = { λ s. s.segment.facts };

    fn name(&self) -> &Text {
        &self.name
    }

    #[tactic(auto, using(crate::proofs::Slots::slot_facts_are))]
    fn observe(&self, out: &mut Literals) -> Result<(), Starved> {
        let alloc = out.alloc();
        let state = state(alloc, &self.holder)?;
        let fact = unary(alloc, b"slot", state)?;
        out.push(fact)
    }

    fn operate(
        &mut self,
        alloc: Global,
        agent: &Text,
        action: &Literal,
    ) -> Result<Feedback, Starved> {
        act(alloc, &mut self.holder, agent, action)
    }
}
