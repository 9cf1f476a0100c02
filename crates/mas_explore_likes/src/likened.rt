//! Minds of which it can be asked whether they go on alike.

ghost use Rattle.std.specs.Prelude.{◌≡◌, true, IfOk};
ghost use Rattle.mas_explore_likes.specs.Likes.{GoAlike};

use asl_term::sequence::Starved;
use mas_free::steady::Steady;
use std::alloc::Global;

/// A mind that can be compared with another.
pub trait Likened: Steady {
    /// Whether the two go on alike, whatever they have shown. It may be said of two that do that they do not.
    fn same(&self, alloc: Global, other: &Self) -> Result<bool, Starved>
        ensures { IfOk result (λ r. r ≡ true → GoAlike Self.kind self.now other.now) };

    /// A number that is the same for two that are the same. Nothing is said of it: it finds the minds to be compared.
    fn mix(&self, alloc: Global) -> Result<u64, Starved>;
}
