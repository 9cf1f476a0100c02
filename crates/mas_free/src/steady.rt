//! Minds that a quiet cycle leaves as they were.

ghost use Rattle.mas_free.specs.Alike.{QuietStays};

use mas_mind::thinking::Mind;

/// A mind that cannot tell whether it made a quiet cycle: without this law agents could count their idle cycles, and what comes of a run would depend on
/// how many there were.
pub trait Steady: Mind {
    /// After a quiet cycle without a message nothing can be seen of a plain mind that was not so before it.
    ghost quiet_stays: { QuietStays Self.kind };
}
