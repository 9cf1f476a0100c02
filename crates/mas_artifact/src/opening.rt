//! The artifacts in their first states.

ghost use Rattle.std.specs.Prelude.{◌≡◌, IfOk, map};
ghost use Rattle.mas_artifact.specs.Kinds.{used_of};
ghost use Rattle.mas_artifact.specs.Opening.{first_belt, first_kinds, first_slot, first_tally};

use crate::belt::Belt;
use crate::kinds::ArtifactKind;
use crate::slot::Slot;
use crate::tally::Tally;
use asl_term::sequence::Starved;
use std::alloc::Global;

/// A tally of nothing.
pub fn tally(alloc: Global) -> Result<Tally, Starved>
    ensures { IfOk result (λ s. s ≡ first_tally) }
{
    Tally::new(alloc)
}

/// An idle slot.
pub fn slot(alloc: Global) -> Result<Slot, Starved>
    ensures { IfOk result (λ s. s ≡ first_slot) }
{
    Slot::new(alloc)
}

/// A belt with nothing on it.
pub fn belt(alloc: Global) -> Result<Belt, Starved>
    ensures { IfOk result (λ s. s ≡ first_belt) }
{
    Belt::new(alloc)
}

/// One of each kind: a tally, a slot and a belt.
pub fn all_kinds(alloc: Global) -> Result<Vec<ArtifactKind>, Starved>
    ensures { IfOk result (λ kinds. map used_of kinds.items ≡ first_kinds) }
{
    let tally = tally(alloc)?;
    let slot = slot(alloc)?;
    let belt = belt(alloc)?;
    Ok(vec![in alloc;
        ArtifactKind::Tally(tally),
        ArtifactKind::Slot(slot),
        ArtifactKind::Belt(belt),
    ]?)
}
