//! A law of messages about plans.

ghost use Rattle.asl_kqml.specs.Laws.{MessagesKeep};

/// A message takes no plan away but from its sender: the plans of an agent's own source stay.
#[tactic(auto, using(crate::proofs::Learning::messages_keep))]
pub fn messages_keep()
    ensures { MessagesKeep }
{}
