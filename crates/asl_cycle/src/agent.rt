//! An agent: its configuration, and the lines that it has shown.

ghost use Rattle.std.specs.Prelude.{◌≡◌, ◌≤◌, true, IfOk, length};
ghost use Rattle.asl_beliefs.specs.Bases.{all_ground};
ghost use Rattle.asl_cycle.specs.Agent.{opening_mind};
ghost use Rattle.mas_mind.specs.Limits.{most_cycles, most_tries};
ghost use Rattle.mas_mind.specs.Minds.{asks_feedback};

use crate::cycle::cycle;
use crate::opening::{add_goals, copy_plans};
use crate::trace::write_lines;
use asl_exec_circumstance::parts::{Circumstance, Surroundings};
use asl_exec_circumstance::peers::{Peers, agent_name};
use asl_exec_circumstance::shared::SharedNames;
use asl_index::indexed::Indexed;
use asl_intend::agenda::Agenda;
use asl_intend::opening::agenda;
use asl_plans::entry::OwnedPlan;
use asl_plans::library::Library;
use asl_resolve::answers::Budgets;
use asl_stdlib::standard::StandardActions;
use asl_term::sequence::{Seq, Starved};
use asl_term::syntax::{AgentText, Clause, Literals, Text};
use mas_mind::mind::{Feedback, Input, Level, Thought};
use mas_mind::thinking::Mind;
use std::alloc::Global;
use std::marker::Model;

/// An agent. It makes at most 1,000,000 cycles.
pub struct Agent {
    around: Surroundings<StandardActions>,
    parts: Circumstance<Indexed>,
    asks: u64,
    kept: Option<Feedback>,
    awaits: bool,
    cycles: u64,
    level: Level,
    peers: Peers,
    text: Text,
}

/// By hand, so that a crate above that lets one go proves nothing of its parts.
impl Drop for Agent {
    fn drop(self) {
        let Agent {
            around: _,
            parts: _,
            asks: _,
            kept: _,
            awaits: _,
            cycles: _,
            level: _,
            peers: _,
            text: _,
        } = self;
    }
}

impl Model for Agent {
    ghost use Rattle.std.specs.Prelude.{◌≡◌, ◌≤◌, ◌+◌, ◌*◌, ◌||◌, true};
    ghost use Rattle.asl_cycle.specs.Acts.{is_fed};
    ghost use Rattle.asl_cycle.specs.Agent.{Mindset, own_name};
    ghost use Rattle.mas_mind.specs.Limits.{most_cycles, most_tries};
    ghost use Rattle.asl_term.specs.contracts.syntax.Term as term;
    ghost use Rattle.asl_term.specs.contracts.syntax.Expr as expr;
    ghost use Rattle.std.specs.Coded.{codes};

    ghost Value = { Mindset };

    ghost coded = { Prim.hlevel (codes, term.the_row.coded, expr.the_row.coded) };

    ghost view = { λ a. record {
      plans = a.around.lib.plans;
      rules = a.parts.beliefs.rules;
      parts = record { beliefs = a.parts.beliefs.beliefs; agenda = a.parts.agenda; number = a.parts.number };
      asks = a.asks;
      kept = a.kept;
      awaits = a.awaits;
      cycles = a.cycles;
      level = a.level;
      budgets = a.around.budgets;
      peers = a.peers;
      text = a.text;
    } };

    ghost invariant = { λ a. (a.parts.number ≤ 1 + 20000002 * a.cycles)
        × ((a.asks ≤ 1 + a.cycles) × ((a.cycles ≤ most_cycles) × ((a.around.budgets.tries ≤ most_tries) × ((a.around.actions ≡ own_name a.peers)
        × ((a.awaits || is_fed a.parts.agenda.acting a.kept) ≡ true))))) };
}

/// The agent of a source before its first cycle. It has the place `me` among the names of all agents, from 1, which it
/// shares. Its first events are those of its initial beliefs, in order, and then one for each initial goal.
pub fn open_agent(
    alloc: Global,
    me: u32,
    names: &SharedNames,
    source: &AgentText,
    budgets: Budgets,
    level: Level,
) -> Result<Agent, Starved>
    requires from_one { 1 ≤ me }
    requires named { me ≤ length names.now }
    requires ground { all_ground source.now.beliefs ≡ true }
    requires tries { budgets.tries ≤ most_tries }
    ensures { IfOk result (λ a. a ≡ opening_mind me names.now source.now budgets level) }
{
    let lib = Library::of(alloc, copy_plans(alloc, source.plans.as_slice())?)?;
    let mut events = Seq::new(alloc);
    let beliefs = Indexed::open(alloc, source, &mut events)?;
    add_goals(alloc, source.goals.as_slice(), &mut events)?;
    let agenda = agenda(alloc, events)?;
    let actions = StandardActions::new(agent_name(alloc, names.get(), me)?);
    let names = names.again()?;
    Ok(Agent {
        around: Surroundings {
            lib,
            actions,
            budgets,
        },
        parts: Circumstance {
            beliefs,
            agenda,
            number: 1,
        },
        asks: 1,
        kept: None,
        awaits: false,
        cycles: 0,
        level,
        peers: Peers { names, me },
        text: Seq::new(alloc),
    })
}

/// What can be read of an agent between two cycles.
impl Agent {
    /// Its events, and its stacks.
    pub fn agenda(&self) -> &Agenda
        ensures { result.now ≡ self.now.parts.agenda }
    {
        &self.parts.agenda
    }

    /// Its plans, each with those who it is from.
    pub fn plans(&self) -> &[OwnedPlan]
        ensures { result.now ≡ self.now.plans }
    {
        self.around.lib.all()
    }

    /// Its rules.
    pub fn rules(&self) -> &[Clause]
        ensures { result.now ≡ self.now.rules }
    {
        self.parts.beliefs.all_rules()
    }

    /// Equal beliefs, in the order of its own.
    pub fn copy_beliefs(&self, alloc: Global) -> Result<Literals, Starved>
        ensures { IfOk result (λ r. r ≡ self.now.parts.beliefs) }
    {
        self.parts.beliefs.copy_beliefs(alloc)
    }

    /// What it was told of its action, and has not used yet.
    pub fn kept(&self) -> Option<Feedback>
        ensures { result ≡ self.now.kept }
    {
        self.kept
    }

    /// Whether it awaits to be told what became of its action.
    pub fn awaits(&self) -> bool
        ensures { result ≡ self.now.awaits }
    {
        self.awaits
    }

    /// The next fresh number.
    pub fn number(&self) -> u64
        ensures { result ≡ self.now.parts.number }
    {
        self.parts.number
    }

    /// The number of its next ask.
    pub fn asks(&self) -> u64
        ensures { result ≡ self.now.asks }
    {
        self.asks
    }

    /// How much its lines show.
    pub fn level(&self) -> Level
        ensures { result ≡ self.now.level }
    {
        self.level
    }

    /// What one search may use.
    pub fn budgets(&self) -> Budgets
        ensures { result ≡ self.now.budgets }
    {
        self.around.budgets
    }

    /// The names of all agents, and its own number among them.
    pub fn peers(&self) -> &Peers
        ensures { result.now ≡ self.now.peers }
    {
        &self.peers
    }
}

/// Whether a thought has an action, so that feedback is due.
fn asks(thought: &Thought) -> bool
    ensures { result ≡ asks_feedback thought.now }
{
    match thought {
        Thought::Outs(outs) => outs.action.is_some(),
        Thought::Spent => false,
    }
}

impl Mind for Agent {
    ghost use Rattle.std.specs.Prelude.{refl};
    ghost use Rattle.asl_cycle.specs.Agent.{agent_kind};
    ghost use Rattle.asl_cycle.specs.inner.Laws as laws;

    ghost kind = { agent_kind };

    ghost quiet_sends_nothing = { laws.quiet_sends_nothing };

    ghost quiet_again = { laws.quiet_again };

    ghost awaits_after = { λ m i. refl };

    ghost awaits_no_more = { λ m f. refl };

    ghost goes_on = { laws.goes_on };

    ghost is_told = { laws.is_told };

    fn think(&mut self, alloc: Global, input: Input) -> Result<Thought, Starved> {
        self.cycles += 1;
        // Until the cycle has ended it may not make another.
        self.awaits = true;
        let kept = self.kept.take();
        let finished = cycle(
            alloc,
            &mut self.around,
            &self.peers,
            &mut self.parts,
            self.asks,
            kept,
            &input,
        )?;
        self.asks = finished.asks;
        write_lines(
            alloc,
            &mut self.text,
            self.level,
            self.cycles,
            finished.lines.as_slice(),
        )?;
        self.awaits = asks(&finished.thought);
        Ok(finished.thought)
    }

    fn took(&mut self, feedback: Feedback) {
        self.kept = Some(feedback);
        self.awaits = false;
    }

    fn lines(&self) -> &Text {
        &self.text
    }
}
