//! Laws of the numbers of variables, as contracts of functions that do nothing.

ghost use Rattle.asl_lint_laws.specs.Fresh.{MatchesBelow, SolutionsBelow, StandardBelow};

/// A match has no variable that is neither in what was matched nor in the substitution that it extends.
pub fn matches_are_below()
    ensures { MatchesBelow }
{}

/// A solution has no variable with its next fresh number or a greater one, where the expression and the substitution that it extends
/// have none with the number from which it was searched or a greater one. Beliefs have no variables, those of rules have the number 0,
/// and internal actions bring none.
pub fn solutions_are_below()
    ensures { SolutionsBelow }
{}

/// The internal actions of formulas bring no variables.
pub fn actions_are_below()
    ensures { StandardBelow }
{}
