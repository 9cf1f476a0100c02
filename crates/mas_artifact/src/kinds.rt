//! An artifact of any of the three kinds.

ghost use Rattle.mas_artifact.specs.Kinds.{used_of};

use crate::belt::Belt;
use crate::slot::Slot;
use crate::tally::Tally;
use asl_term::sequence::Starved;
use asl_term::syntax::{Literal, Literals, Text};
use mas_mind::mind::Feedback;
use mas_world::artifact::Artifact;
use std::alloc::Global;

/// A tally, a slot or a belt. A caller that wants it in a box puts it there.
#[derive(Drop)]
pub enum ArtifactKind {
    Tally(Tally),
    Slot(Slot),
    Belt(Belt),
}

impl Artifact for ArtifactKind {
    ghost named = { λ k. (used_of k).name };

    ghost table = { λ k. (used_of k).segment.acts };

    ghost facts = { λ k. (used_of k).segment.facts };

    fn name(&self) -> &Text {
        match self {
            ArtifactKind::Tally(tally) => tally.name(),
            ArtifactKind::Slot(slot) => slot.name(),
            ArtifactKind::Belt(belt) => belt.name(),
        }
    }

    fn observe(&self, out: &mut Literals) -> Result<(), Starved> {
        match self {
            ArtifactKind::Tally(tally) => tally.observe(out),
            ArtifactKind::Slot(slot) => slot.observe(out),
            ArtifactKind::Belt(belt) => belt.observe(out),
        }
    }

    fn operate(
        &mut self,
        alloc: Global,
        agent: &Text,
        action: &Literal,
    ) -> Result<Feedback, Starved> {
        match self {
            ArtifactKind::Tally(tally) => tally.operate(alloc, agent, action),
            ArtifactKind::Slot(slot) => slot.operate(alloc, agent, action),
            ArtifactKind::Belt(belt) => belt.operate(alloc, agent, action),
        }
    }
}
