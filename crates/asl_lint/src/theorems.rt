//! Laws for readers: what a yes says, and what covering is.

ghost use Rattle.std.specs.Prelude.{ℕ, List};
ghost use Rattle.asl_term.specs.declared.syntax.AgentText.{AgentText};
ghost use Rattle.asl_lint.specs.Instances.{CoversTells};
ghost use Rattle.asl_lint.specs.Lints.{IsYes, verdict};

/// The verdict is yes exactly where every initial goal and every item of every plan holds.
#[tactic(auto, using(crate::proofs::Verdicts::yes_decides))]
pub fn yes_means_all()
    ensures { (names : List (List ℕ)) (texts : List AgentText) → IsYes names texts (verdict names texts) }
{}

/// A trigger covers a goal exactly where it takes a goal from any source and some terms for its variables make its arguments those
/// of the goal: for literals as a reader gives them, in which no list has a tail and no items and none ends in a list.
pub fn covers_is_exact()
    ensures { CoversTells }
{}
