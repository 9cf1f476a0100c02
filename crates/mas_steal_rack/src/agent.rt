//! What lies in a deque.
ghost use Rattle.std.specs.Prelude.{ℕ};

/// An agent that waits for a worker. It has a number, and belongs to a home, which is the same for all agents of a rack.
pub trait ReadyAgent: Drop {
    type Home;

    ghost number: { Self → ℕ };

    ghost home: { Self → Self.Home };

    // what is true of each agent that waits
    ghost ready: { Self → Type 0 };
}
