//! Laws of plans as texts.

ghost use Rattle.asl_print_plan.specs.Laws.{FoundIsPlan, PlanIsFound, WrittenIsPlan};

/// The plan that is found in bytes is the one that they are as the source of an agent, and each such plan is found.
#[tactic(auto, using(crate::proofs::Alone::found_is_plan))]
pub fn found_is_plan()
    ensures found { FoundIsPlan }
    ensures all { PlanIsFound }
{}

/// A plan that was told and is asked for again is the same plan: what is written of it is read as that plan.
#[tactic(auto, using(crate::proofs::Written::written_is_plan))]
pub fn written_is_plan()
    ensures { WrittenIsPlan }
{}
