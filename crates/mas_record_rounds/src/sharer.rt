//! An agent of a recorded run: its ticket, its mind, and the thought of a cycle that is not ended.

use asl_term::sequence::Seq;
use mas_mind::mind::Thought;
use mas_mind::thinking::Mind;
use mas_record::ticket::Ticket;
use mas_record_disk::disk::Disk;
use mas_world::artifact::Artifact;

/// An agent by its number, with its ticket and its mind; while it is busy also the thought of its last cycle.
#[derive(Drop)]
pub struct Sharer<M: Mind, A: Artifact, D: Disk + Send> {
    pub number: u32,
    pub ticket: Ticket<A, D>,
    pub mind: M,
    pub thought: Option<Thought>,
}

pub type Sharers<M, A, D> = Seq<Sharer<M, A, D>>;
