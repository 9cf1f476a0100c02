//! A start from which minds and worlds are opened again.

ghost use Rattle.std.specs.Prelude.{◌≡◌, ◌-◌};

use asl_term::names::Names;
use asl_term::sequence::Starved;
use mas_explore::origin::Origin;
use mas_explore_minds::fresh::Fresh;
use mas_explore_worlds::fresh::FreshWorld;
use mas_free::steady::Steady;
use mas_world::artifact::Artifact;
use mas_world::world::World;
use std::alloc::Global;
use std::marker::PhantomData;

/// What all runs begin with, lent to a search.
#[derive(Drop)]
pub struct Opened<'o, M: Steady, A: Artifact, O: Origin<M, A>> {
    pub origin: &'o O,
    minds: PhantomData<M>,
    artifacts: PhantomData<A>,
}

impl<'o, M: Steady, A: Artifact, O: Origin<M, A>> Opened<'o, M, A, O> {
    /// This start.
    pub fn new(origin: &'o O) -> Opened<'o, M, A, O>
        ensures { result.origin.now ≡ origin.now }
    {
        Opened {
            origin,
            minds: PhantomData,
            artifacts: PhantomData,
        }
    }
}

impl<'o, M: Steady, A: Artifact, O: Origin<M, A>> Fresh<M> for Opened<'o, M, A, O> {
    ghost first = { λ o. (O.start o.origin.now).minds };

    fn agents(&self) -> u32 {
        self.origin.names().len()
    }

    fn mind(&self, alloc: Global, a: u32) -> Result<M, Starved> {
        let _names = self.origin.names();
        self.origin.mind(alloc, a)
    }
}

impl<'o, M: Steady, A: Artifact, O: Origin<M, A>> FreshWorld<A> for Opened<'o, M, A, O> {
    ghost agents = { λ o. (O.start o.origin.now).names };

    ghost start = { λ o. (O.start o.origin.now).world };

    fn names(&self) -> &Names {
        self.origin.names()
    }

    fn world(&self, alloc: Global) -> Result<World<A>, Starved> {
        self.origin.world(alloc)
    }
}
