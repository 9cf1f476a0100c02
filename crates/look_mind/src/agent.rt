//! What is written of an agent: its text, and the texts of the parts that a page tells of.

ghost use Rattle.std.specs.Prelude.{◌≡◌, ◌++◌, codes, map, IfOk, OnOk};
ghost use Rattle.look_lines.specs.Lines.{literal_line, part};
ghost use Rattle.look_mind.specs.PartTexts.{part_text};
ghost use Rattle.look_mind.specs.Texts.{event_text};

use asl_cycle::agent::Agent;
use asl_intend::agenda::Event;
use asl_term::names::Names;
use asl_term::sequence::{Seq, Starved};
use asl_term::syntax::Text;
use look_lines::lines::put_literals;
use look_run::mind::MindText;
use look_run::texts::MindTexts;
use look_text::agendas::{put_acting, put_agenda, put_asks, put_events, put_running, put_trigger};
use look_text::plans::{put_plans, put_rules};
use look_text::stacks::put_stack;
use std::alloc::Global;

/// Appends the part of the beliefs.
fn put_beliefs(alloc: Global, out: &mut Text, m: &Agent) -> Result<(), Starved>
    ensures { OnOk result (out.new ≡ out.old ++ part (codes "beliefs") literal_line m.now.parts.beliefs) }
{
    let beliefs = m.copy_beliefs(alloc)?;
    let put = put_literals(alloc, out, b"beliefs", beliefs.as_slice());
    drop(beliefs);
    put
}

/// Writes the text of an agent.
#[derive(Clone, Copy)]
pub struct AgentWriter;

impl MindText<Agent> for AgentWriter {
    ghost use Rattle.look_mind.specs.Parts.{mind_parts};

    ghost parts = { mind_parts };

    #[tactic(auto, unfolding(crate::specs::Parts::mind_parts))]
    fn put_parts(
        &self,
        alloc: Global,
        out: &mut Text,
        m: &Agent,
        names: &Names,
    ) -> Result<(), Starved> {
        put_beliefs(alloc, out, m)?;
        put_rules(alloc, out, m.rules())?;
        put_plans(alloc, out, names, m.plans())?;
        put_agenda(alloc, out, m.kept(), m.agenda())
    }
}

/// A part of what is written of an agent.
#[derive(Clone, Copy)]
pub enum AgentPart {
    Beliefs,
    Events,
    Running,
    Acting,
    Asks,
    /// The goal of the oldest event, and the stack that waits for it.
    Oldest,
    /// The stack that runs next.
    Next,
    /// The stack that waits for its action.
    Held,
}

/// Appends the goal of an event, and the stack that waits for it.
#[tactic(auto, unfolding(crate::specs::Texts::event_text))]
fn put_oldest(alloc: Global, out: &mut Text, e: &Event) -> Result<(), Starved>
    ensures { OnOk result (out.new ≡ out.old ++ event_text e.now) }
{
    out.append(b"    ")?;
    put_trigger(alloc, out, &e.trigger)?;
    out.append(b"\n")?;
    put_stack(alloc, out, &e.stack)
}

/// Appends a part.
fn put_part(alloc: Global, out: &mut Text, m: &Agent, part: AgentPart) -> Result<(), Starved>
    ensures { OnOk result (out.new ≡ out.old ++ part_text m.now part) }
{
    let agenda = m.agenda();
    match part {
        AgentPart::Beliefs => put_beliefs(alloc, out, m),
        AgentPart::Events => put_events(alloc, out, &agenda.events),
        AgentPart::Running => put_running(alloc, out, &agenda.running),
        AgentPart::Acting => put_acting(alloc, out, m.kept(), &agenda.acting),
        AgentPart::Asks => put_asks(alloc, out, agenda.asks.as_slice()),
        AgentPart::Oldest => match agenda.events.first() {
            Some(e) => put_oldest(alloc, out, e),
            None => Ok(()),
        },
        AgentPart::Next => match agenda.running.first() {
            Some(stack) => put_stack(alloc, out, stack),
            None => Ok(()),
        },
        AgentPart::Held => match &agenda.acting {
            Some(a) => put_stack(alloc, out, &a.stack),
            None => Ok(()),
        },
    }
}

/// The texts of these parts of an agent.
fn part_texts(alloc: Global, m: &Agent, parts: &[AgentPart]) -> Result<Seq<Text>, Starved>
    ensures { IfOk result (λ ts. ts ≡ map (part_text m.now) parts.now) }
{
    let mut texts = Seq::new(alloc);
    'parts: for part in parts {
        let mut text = Seq::new(alloc);
        put_part(alloc, &mut text, m, *part)?;
        texts.push(text)?;
    }
    Ok(texts)
}

/// Writes the parts of an agent.
#[derive(Clone, Copy)]
pub struct AgentParts;

impl MindTexts<Agent> for AgentParts {
    ghost use Rattle.look_mind.specs.Parts.{agent_texts};

    ghost texts = { agent_texts };

    fn texts_of(&self, alloc: Global, m: &Agent) -> Result<Seq<Text>, Starved> {
        part_texts(
            alloc,
            m,
            &[
                AgentPart::Beliefs,
                AgentPart::Events,
                AgentPart::Running,
                AgentPart::Acting,
                AgentPart::Asks,
            ],
        )
    }
}

/// Writes the texts of an agent that tell which stack may fail in its next cycle.
#[derive(Clone, Copy)]
pub struct AgentTexts;

impl MindTexts<Agent> for AgentTexts {
    ghost use Rattle.look_mind.specs.Texts.{agent_texts};

    ghost texts = { agent_texts };

    fn texts_of(&self, alloc: Global, m: &Agent) -> Result<Seq<Text>, Starved> {
        part_texts(
            alloc,
            m,
            &[
                AgentPart::Oldest,
                AgentPart::Next,
                AgentPart::Held,
                AgentPart::Asks,
            ],
        )
    }
}
