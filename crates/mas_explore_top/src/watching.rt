//! Who is told how far a search has come.

ghost use Rattle.std.specs.Prelude.{◌≡◌};

use asl_term::sequence::Starved;
use asl_term::syntax::Text;
use mas_explore::listing::Plan;
use mas_explore::space::Space;
use mas_free::steady::Steady;
use mas_free::view::View;
use std::alloc::Global;

/// How far a search has come: how many states it has met, of how many it has followed the moves, and from how many of these there was none.
#[derive(Clone, Copy)]
pub struct Progress {
    pub met: u64,
    pub followed: u64,
    pub rests: u64,
}

/// Who is told it. Nothing that is found depends on that.
pub trait Watch: Drop {
    fn tell(&mut self, progress: Progress);
}

/// Of how many states the first is told.
const STRETCH: u64 = 16;

/// The states of a search that is watched, where somebody watches. They are those of the space within.
#[derive(Drop)]
pub struct Watched<S: Drop, W: Watch> {
    pub space: S,
    watch: Option<W>,
    moved: bool,
    rests: u64,
}

impl<S: Drop, W: Watch> Watched<S, W> {
    /// The states of this space.
    pub fn new(space: S, watch: Option<W>) -> Watched<S, W>
        ensures { result.space ≡ space }
    {
        Watched {
            space,
            watch,
            moved: true,
            rests: 0,
        }
    }

    /// Tells how far the search has come as it begins to follow a state of which it met so many.
    fn tell(&mut self, met: u64, state: u64)
        ensures { self.new.space ≡ self.old.space }
    {
        if !self.moved {
            self.rests = self.rests.saturating_add(1);
        }
        self.moved = false;
        if state % STRETCH != 0 {
            return;
        }
        let progress = Progress {
            met,
            followed: state,
            rests: self.rests,
        };
        if let Some(watch) = &mut self.watch {
            watch.tell(progress);
        }
    }
}

impl<M: Steady, S: Space<M> + Drop, W: Watch> Space<M> for Watched<S, W> {
    ghost start = { λ w. S.start w.space };

    ghost met = { λ w. S.met w.space };

    fn agents(&self) -> u32 {
        self.space.agents()
    }

    fn count(&self) -> u64 {
        self.space.count()
    }

    fn follow(&mut self, alloc: Global, state: u64, a: u32, view: View) -> Result<bool, Starved> {
        if a == 1 {
            let met = self.space.count();
            self.tell(met, state);
        }
        let moved = self.space.follow(alloc, state, a, view)?;
        self.moved = self.moved || moved;
        Ok(moved)
    }

    fn outcome(&self, alloc: Global, state: u64, view: View) -> Result<Text, Starved> {
        self.space.outcome(alloc, state, view)
    }

    fn plan(&self, alloc: Global, state: u64) -> Result<Plan, Starved> {
        self.space.plan(alloc, state)
    }
}
