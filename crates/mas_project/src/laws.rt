//! What is true of projects.

ghost use Rattle.mas_project.specs.Laws.{OneReading, OneAnswer, SomeAnswer, SomeAgents};

/// A piece says one thing at most.
#[tactic(auto, using(crate::proofs::Complete::one_reading))]
pub fn one_reading()
    ensures { OneReading }
{}

/// Each list of bytes has one answer: a project, or one fault, and not both.
#[tactic(auto, using(crate::proofs::Answers::one_answer, crate::proofs::Total::some_answer))]
pub fn one_answer()
    ensures one { OneAnswer }
    ensures some { SomeAnswer }
{}

/// A project has an agent.
#[tactic(auto, using(crate::proofs::Agents::some_agents))]
pub fn some_agents()
    ensures { SomeAgents }
{}
