//! Laws of plans that come and go.

ghost use Rattle.asl_plans.specs.Laws.{AddedAreEntries, AddingKeeps, DroppedAreEntries, DroppingKeeps, OpenedAreEntries, SourceOwns};

/// The plans of an owner stay whatever others add and take back; those of a source are from the source.
#[tactic(auto, using(crate::proofs::Owning::adding_keeps, crate::proofs::Owning::dropping_keeps, crate::proofs::Owning::source_owns))]
pub fn owners_are_kept()
    ensures adding { AddingKeeps }
    ensures dropping { DroppingKeeps }
    ensures source { SourceOwns }
{}

/// No two plans of a library are the same, and each is from someone.
#[tactic(auto, using(crate::proofs::OwnedPlans::opened_sound, crate::proofs::OwnedPlans::entries_added, crate::proofs::OwnedPlans::entries_dropped))]
pub fn plans_differ()
    ensures opened { OpenedAreEntries }
    ensures added { AddedAreEntries }
    ensures dropped { DroppedAreEntries }
{}
