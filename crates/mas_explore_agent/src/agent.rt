//! An agent whose quiet cycles cannot be seen.

ghost use Rattle.std.specs.Prelude.{◌≡◌, ◌≤◌, true, false, IfOk, length};
ghost use Rattle.asl_beliefs.specs.Bases.{all_ground};
ghost use Rattle.asl_cycle.specs.Agent.{agent_kind, opening_mind};
ghost use Rattle.asl_cycle.specs.Trace.{shows_rules};
ghost use Rattle.mas_free.specs.Alike.{IsPlain};
ghost use Rattle.mas_mind.specs.Limits.{most_tries};

use crate::same::{mix_agent, same_agent};
use asl_cycle::agent::{Agent, open_agent};
use asl_exec_circumstance::shared::SharedNames;
use asl_resolve::answers::Budgets;
use asl_term::sequence::Starved;
use asl_term::syntax::{AgentText, Text};
use mas_explore_likes::likened::Likened;
use mas_free::steady::Steady;
use mas_mind::mind::{Feedback, Input, Level, Thought};
use mas_mind::thinking::Mind;
use std::alloc::Global;
use std::marker::Model;

/// An agent, of which it is known that quiet cycles leave nothing to be seen. Contracts see it as they see the agent.
pub struct SteadyAgent {
    agent: Agent,
}

/// By hand, so that a crate above that lets one go proves nothing of its parts.
impl Drop for SteadyAgent {
    fn drop(self) {
        let SteadyAgent { agent: _ } = self;
    }
}

impl Model for SteadyAgent {
    ghost use Rattle.asl_cycle.specs.Agent.{Mindset};
    ghost use Rattle.asl_term.specs.contracts.syntax.Term as term;
    ghost use Rattle.asl_term.specs.contracts.syntax.Expr as expr;
    ghost use Rattle.std.specs.Coded.{codes};

    ghost Value = { Mindset };

    ghost coded = { Prim.hlevel (codes, term.the_row.coded, expr.the_row.coded) };

    ghost view = { λ a. a.agent };
}

/// The agent of a source before its first cycle, as `open_agent` opens it. What it shows, but for the names of rows, is plain.
pub fn open_steady(
    alloc: Global,
    me: u32,
    names: &SharedNames,
    source: &AgentText,
    budgets: Budgets,
    level: Level,
) -> Result<SteadyAgent, Starved>
    requires from_one { 1 ≤ me }
    requires named { me ≤ length names.now }
    requires ground { all_ground source.now.beliefs ≡ true }
    requires tries { budgets.tries ≤ most_tries }
    ensures opened { IfOk result (λ a. a ≡ opening_mind me names.now source.now budgets level) }
    ensures plain { shows_rules level ≡ false → IfOk result (IsPlain agent_kind) }
{
    let agent = open_agent(alloc, me, names, source, budgets, level)?;
    Ok(SteadyAgent { agent })
}

impl SteadyAgent {
    /// Any agent, as one of these.
    pub fn of(agent: Agent) -> SteadyAgent
        ensures { result ≡ agent }
    {
        SteadyAgent { agent }
    }

    /// The agent itself, with what can be read of it.
    pub fn agent(&self) -> &Agent
        ensures { result.now ≡ self.now }
    {
        &self.agent
    }
}

impl Mind for SteadyAgent {
    ghost use Rattle.std.specs.Prelude.{refl};
    ghost use Rattle.asl_cycle.specs.inner.Laws as laws;

    ghost kind = { agent_kind };

    ghost quiet_sends_nothing = { laws.quiet_sends_nothing };

    ghost quiet_again = { laws.quiet_again };

    ghost awaits_after = { λ m i. refl };

    ghost awaits_no_more = { λ m f. refl };

    ghost goes_on = { laws.goes_on };

    ghost is_told = { laws.is_told };

    fn think(&mut self, alloc: Global, input: Input) -> Result<Thought, Starved> {
        self.agent.think(alloc, input)
    }

    fn took(&mut self, feedback: Feedback) {
        self.agent.took(feedback);
    }

    fn lines(&self) -> &Text {
        self.agent.lines()
    }
}

impl Steady for SteadyAgent {
    ghost use Rattle.mas_explore_agent.specs.inner.Likes.{quiet_stays};

    ghost quiet_stays = { quiet_stays };
}

impl Likened for SteadyAgent {
    fn same(&self, alloc: Global, other: &SteadyAgent) -> Result<bool, Starved> {
        let same = same_agent(alloc, &self.agent, &other.agent)?;
        Ok(same)
    }

    fn mix(&self, alloc: Global) -> Result<u64, Starved> {
        mix_agent(alloc, &self.agent)
    }
}
