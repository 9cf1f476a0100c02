//! A share of the agents of a recorded run.

use crate::sharer::{Sharer, Sharers};
use asl_term::room::Roomy;
use mas_mind::mind::Thought;
use mas_mind::thinking::Mind;
use mas_record::deck::DeckFault;
use mas_record::ticket::Ticket;
use mas_record_disk::disk::Disk;
use mas_world::artifact::Artifact;

/// Some agents, and what their last round came to.
#[derive(Drop)]
pub struct Share<M: Mind, A: Artifact, D: Disk + Send> {
    pub sharers: Sharers<M, A, D>,
    pub came: Result<u64, DeckFault>,
}

/// An agent before it has its ticket: its mind, its thought, and a place for it.
#[derive(Drop)]
pub struct Waiting<M: Mind, A: Artifact, D: Disk + Send> {
    pub mind: M,
    pub thought: Option<Thought>,
    pub place: Roomy<Sharer<M, A, D>>,
}

/// Room for all agents: their shares, and in the end their tickets and their minds.
#[derive(Drop)]
pub struct Rooms<M: Mind, A: Artifact, D: Disk + Send> {
    pub shares: Roomy<Share<M, A, D>>,
    pub tickets: Roomy<Ticket<A, D>>,
    pub minds: Roomy<M>,
}
