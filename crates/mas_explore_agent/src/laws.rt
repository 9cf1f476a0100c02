//! What a quiet cycle of an agent tells, whatever the agent is.

ghost use Rattle.mas_free.specs.Alike.{QuietStays};
ghost use Rattle.mas_free.specs.Covers.{ClosedCovers, CoversRuns};
ghost use Rattle.asl_cycle.specs.Agent.{agent_kind};
ghost use Rattle.mas_explore_agent.specs.Plain.{OpensPlain};

use crate::agent::SteadyAgent;
use mas_free::laws::covers_runs;

/// An agent cannot tell whether it made a quiet cycle.
pub fn agents_are_steady()
    ensures { QuietStays agent_kind }
{}

/// An agent begins plain: its lines are whole, and a quiet cycle writes none.
pub fn agents_open_plain()
    ensures { OpensPlain }
{}

/// What the free machine tells of runs it tells of those of agents.
pub fn covers_runs_of_agents()
    ensures runs { CoversRuns agent_kind }
    ensures closed { ClosedCovers agent_kind }
{
    covers_runs::<SteadyAgent>();
}
