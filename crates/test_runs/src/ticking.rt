//! An artifact of one's own that looks how often a disk was synced.

use asl_term::sequence::Starved;
use asl_term::syntax::{Literal, Literals, Text};
use mas_artifact::tally::Tally;
use mas_mind::mind::Feedback;
use mas_world::artifact::Artifact;
use std::alloc::Global;
use std::sync::Arc;
use std::sync::atomic::Ordering;
use test_records::watching::Marks;

/// A tally that notes how often a disk was synced when it is first acted on, and when it was last acted on after that.
#[derive(Drop)]
pub struct Ticking {
    pub tally: Tally,
    pub is_acted_on: bool,
    pub marks: Arc<Marks>,
}

impl Artifact for Ticking {
    ghost named = { λ t. t.tally.name };

    ghost table = { λ t. t.tally.segment.acts };

    ghost facts = { λ t. t.tally.segment.facts };

    fn name(&self) -> &Text {
        self.tally.name()
    }

    fn observe(&self, out: &mut Literals) -> Result<(), Starved> {
        self.tally.observe(out)
    }

    fn operate(
        &mut self,
        alloc: Global,
        agent: &Text,
        action: &Literal,
    ) -> Result<Feedback, Starved> {
        let syncs = self.marks.syncs.load(Ordering::SeqCst);
        if self.is_acted_on {
            self.marks.second.store(syncs, Ordering::SeqCst);
        } else {
            self.marks.first.store(syncs, Ordering::SeqCst);
        }
        self.is_acted_on = true;
        self.tally.operate(alloc, agent, action)
    }
}
