//! The right of one agent to make its turns.

use crate::parcel::Parcel;
use asl_term::sequence::Seq;
use crossbeam_queue::Pass;
use mas_board::board::Board;
use mas_board_turns::view::SideView;
use mas_world::artifact::Artifact;

/// The right of one agent, by its number, to make its turns.
#[derive(Drop)]
pub struct Seat<A: Artifact> {
    pub number: u32,
    pub pass: Pass<Parcel<Board<A>>, SideView>,
}

pub type Seats<A> = Seq<Seat<A>>;
