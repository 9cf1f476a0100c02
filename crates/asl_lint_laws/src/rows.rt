//! Laws of the rows, as contracts of functions that do nothing.

ghost use Rattle.asl_lint_laws.specs.Rows.{GoalIsServed, ExecKeeps, ClearKeeps, ChoiceKeeps};

/// The event of a goal that a plan serves has a relevant plan, then and later.
pub fn goal_is_served()
    ensures { GoalIsServed }
{}

/// The rows of a formula leave each event of a goal with a relevant plan.
pub fn exec_keeps()
    ensures { ExecKeeps }
{}

/// So do those of what is left of a stack.
pub fn clear_keeps()
    ensures { ClearKeeps }
{}

/// The plan that an event gets has such means.
pub fn choice_keeps()
    ensures { ChoiceKeeps }
{}
