//! A place that bytes are written to.

ghost use Rattle.std.specs.Prelude.{◌≤◌, ◌<◌, List, Option, ℕ, length};
ghost use Rattle.mas_io.specs.Sink.{PutFits};

/// What became of a piece: how many of its bytes were taken, from the first on.
#[derive(Clone, Copy, PartialEq, Eq)]
pub enum Put {
    Took(usize),
    Failed,
}

/// Bytes in order, of which a call can fail.
pub trait Sink {
    /// What was written to it, where it tells that.
    ghost written: { Self → Option (List ℕ) };

    /// How often it has failed.
    ghost faults: { Self → ℕ };

    /// Takes some of the piece, at least one byte. It takes no memory.
    fn put(&mut self, piece: &[u8]) -> Put
        requires { 0 < length piece.now }
        ensures later { faults self.old ≤ faults self.new }
        ensures fits { PutFits (written self.old) (written self.new) piece.now (faults self.old) (faults self.new) result };
}
