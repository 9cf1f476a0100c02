//! What a worker does with an agent.
ghost use Rattle.std.specs.Prelude.{◌≡◌, Some};
ghost use Rattle.mas_steal_rack.specs.Turns.{MatchTurned, Went, Ended};

use crate::agent::ReadyAgent;
use std::sync::Wait;
use std::thread::Threads;

/// What became of an agent: it goes on, it has to wait for others, or it goes to no worker again.
pub enum AgentTurned<T> {
    Again(T),
    Ahead(T),
    Ended(T),
}

/// A worker's turn with one agent.
pub trait Turns<T: ReadyAgent> {
    ghost use Rattle.std.specs.Prelude.{Option};
    ghost use Rattle.std.specs.Thread.{IsSync};

    // the home whose agents it serves
    ghost serves: { Self → Option T.Home };

    // what is true of each agent that it ended
    ghost ended: { Self → T → Type 0 };

    fn turn<R: Threads + Wait + Sync>(&self, rt: &R, agent: T) -> AgentTurned<T>
        requires sync { IsSync R.row }
        requires ready { T.ready agent }
        requires home { serves self.now ≡ Some (T.home agent) }
        ensures { MatchTurned result (Went T.number T.home T.ready agent) (Went T.number T.home T.ready agent) (Ended T.number (ended self.now) agent) };
}
