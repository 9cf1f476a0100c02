//! What is held besides the states.

ghost use Rattle.std.specs.Prelude.{◌≡◌, slice_get, Some};
ghost use Rattle.mas_explore_space.specs.Held as spec;

use mas_explore_minds::fresh::Fresh;
use mas_explore_minds::minds::{Minds, no_minds};
use mas_explore_tables::answers::Answered;
use mas_explore_tables::mixing::stirred;
use mas_explore_tables::table::{Known, Table};
use mas_explore_worlds::fresh::FreshWorld;
use mas_explore_worlds::worlds::{Acted, Worlds};
use mas_mind::thinking::Mind;
use mas_world::artifact::Artifact;
use std::alloc::Global;

/// The world of this number, as the agent of this number sees it.
#[derive(Clone, Copy, PartialEq, Eq, Drop)]
pub struct Seeing {
    pub world: u64,
    pub agent: u32,
}

impl Known for Seeing {
    fn same(&self, other: &Seeing) -> bool {
        *self == *other
    }

    fn mix(&self) -> u64 {
        stirred(self.world, self.agent as u64)
    }
}

/// The action of the thought of this number, of an agent, on a world.
#[derive(Clone, Copy, PartialEq, Eq, Drop)]
pub struct Acting {
    pub world: u64,
    pub agent: u32,
    pub thought: u64,
}

impl Known for Acting {
    fn same(&self, other: &Acting) -> bool {
        *self == *other
    }

    fn mix(&self) -> u64 {
        stirred(self.world, stirred(self.thought, self.agent as u64))
    }
}

/// Minds and worlds by their numbers, what agents saw of worlds, and what worlds made of actions.
pub struct Held {
    pub minds: Minds,
    pub worlds: Worlds,
    pub seen: Answered<Seeing, u64>,
    pub acted: Answered<Acting, Acted>,
}

/// By hand, so that who lets one go proves nothing of its parts.
impl Drop for Held {
    fn drop(self) {
        let Held {
            minds: _,
            worlds: _,
            seen: _,
            acted: _,
        } = self;
    }
}

/// The minds and the world of the start alone.
#[tactic(auto, using(crate::proofs::Helds::fits_none))]
pub fn nothing_held<M: Mind, A: Artifact, F: Fresh<M> + FreshWorld<A>>(
    alloc: Global,
    fresh: &F,
) -> Held
    ensures fits { let s = spec.start_of (F.agents fresh.now) (F.start fresh.now) (F.first fresh.now) in spec.Fits M.kind s result }
    ensures minds { let s = spec.start_of (F.agents fresh.now) (F.start fresh.now) (F.first fresh.now) in
        spec.minds_of M.kind s result ≡ F.first fresh.now }
    ensures world { let s = spec.start_of (F.agents fresh.now) (F.start fresh.now) (F.first fresh.now) in
        slice_get (spec.worlds_of s result) 0 ≡ Some (F.start fresh.now) }
{
    let minds = no_minds::<M, F>(alloc, fresh);
    let _names = fresh.names();
    Held {
        minds,
        worlds: Table::new(alloc),
        seen: Answered::new(alloc),
        acted: Answered::new(alloc),
    }
}
