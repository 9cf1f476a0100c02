//! Laws of messages, as contracts of functions that do nothing.

ghost use Rattle.asl_lint_laws.specs.Mail.{OpenedAreOwn, PlansStay, ReceiveKeeps};

/// The plans of a source are its agent's own, and stay as they are where no plans are told.
pub fn plans_stay()
    ensures opened { OpenedAreOwn }
    ensures stay { PlansStay }
{}

/// A message that brings only goals which are served leaves each event of a goal with a relevant plan.
pub fn receive_keeps()
    ensures { ReceiveKeeps }
{}
