//! Laws of cycles, as contracts of functions that do nothing.

ghost use Rattle.asl_lint_laws.specs.Cycles.{CycleKeeps, AgentKeeps};

/// No cycle has the row of an event of a goal for which no plan is relevant, and what it leaves and sends keeps later cycles so.
pub fn cycle_keeps()
    ensures { CycleKeeps }
{}

/// The same of an agent.
pub fn agent_keeps()
    ensures { AgentKeeps }
{}
