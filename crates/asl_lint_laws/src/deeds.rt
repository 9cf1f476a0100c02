//! Laws of internal actions, as contracts of functions that do nothing.

ghost use Rattle.asl_lint_laws.specs.Deeds.{DeedKeeps};

/// They leave each event of a goal with a relevant plan, and the goals that they send are served where they come.
pub fn deeds_keep()
    ensures { DeedKeeps }
{}
