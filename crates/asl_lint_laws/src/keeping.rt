//! Laws of such agendas, as contracts of functions that do nothing.

ghost use Rattle.asl_lint_laws.specs.Keeps.{CounterKeeps, BoundKeeps, FailureKeeps};

/// An agenda stays so as the counter rises.
pub fn counter_keeps()
    ensures { CounterKeeps }
{}

/// So does a stack with a substitution put into it.
pub fn bound_keeps()
    ensures { BoundKeeps }
{}

/// What fails raises at most an event that has a relevant plan, then and later.
pub fn failure_keeps()
    ensures { FailureKeeps }
{}
