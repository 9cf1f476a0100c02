//! A world that is opened afresh.

ghost use Rattle.std.specs.Prelude.{◌≡◌, List, ℕ, IfOk};
ghost use Rattle.mas_world.specs.Worlds.{World};

use asl_term::names::Names;
use asl_term::sequence::Starved;
use mas_world::artifact::Artifact;
use mas_world::world::World;
use std::alloc::Global;

/// The names of all agents, and the world as it is at the start, as often as it is asked for.
pub trait FreshWorld<A: Artifact> {
    ghost agents: { Self → List (List ℕ) };

    ghost start: { Self → World };

    fn names(&self) -> &Names
        ensures { result.now ≡ agents self.now };

    fn world(&self, alloc: Global) -> Result<World<A>, Starved>
        ensures { IfOk result (λ w. w ≡ start self.now) };
}
