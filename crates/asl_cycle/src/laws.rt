//! Laws of cycles, in the words of who runs agents.

ghost use Rattle.asl_cycle.specs.Acts.{ActionsAreAwaited};
ghost use Rattle.asl_cycle.specs.Intentions.{CyclesKeepIntentions};
ghost use Rattle.asl_cycle.specs.Plans.{BeginsWithSource, CyclesKeepSource};
ghost use Rattle.asl_cycle.specs.Turns.{CyclesTakeTurns, NothingIsLost, CyclesKeepOthers};

/// Intentions take turns: each cycle goes on with the first of those that run and are left, and what is left of the others
/// keeps its order.
pub fn turns_are_taken()
    ensures { CyclesTakeTurns }
{}

/// Where no goal is dropped or ended, nothing of the intentions is lost.
pub fn nothing_is_lost()
    ensures { NothingIsLost }
{}

/// A cycle in which no goal is dropped or ended leaves all but the selected intention as they were, in their order.
pub fn the_others_stay()
    ensures { CyclesKeepOthers }
{}

/// A stack is left waiting for its action exactly where the thought of the cycle has one.
pub fn actions_are_awaited()
    ensures { ActionsAreAwaited }
{}

/// A cycle loses no intention and doubles none: each is afterwards in one place as what the cycle made of it, or has ended for one
/// of the stated reasons; those that are new are external events.
pub fn intentions_are_kept()
    ensures { CyclesKeepIntentions }
{}

/// An agent begins with the plans of its source, and no message takes one of them away.
pub fn plans_of_the_source_stay()
    ensures begins { BeginsWithSource }
    ensures stay { CyclesKeepSource }
{}
