//! What a run is given besides its files.

ghost use Rattle.std.specs.Prelude.{◌≡◌, true};
ghost use Rattle.mas_report.specs.Limits.{IsWithin, defaults};

use mas_mind::limits::{MOST_CYCLES, MOST_TRIES};
use mas_mind::mind::Level;

/// The cycles of each agent, by how many cycles one may be ahead of another, the rules one inside another
/// and the tries of one search, and which lines a trace shows.
#[derive(Clone, Copy)]
pub struct Options {
    pub cycles: u64,
    pub lead: u64,
    pub depth: u64,
    pub tries: u64,
    pub level: Level,
}

/// The most rules one inside another in a search.
pub const MOST_DEPTH: u64 = 10_000;

/// The options of a run that names none.
pub fn default_options() -> Options
    ensures value { result ≡ defaults }
    ensures within { IsWithin result }
{
    Options {
        cycles: 1000,
        lead: 8,
        depth: 500,
        tries: 100_000,
        level: Level::Acts,
    }
}

/// Whether each number is one that its option permits.
pub fn is_within(o: &Options) -> bool
    ensures yes { result ≡ true → IsWithin o.now }
    ensures no { IsWithin o.now → result ≡ true }
{
    let cycles = 1 <= o.cycles && o.cycles <= MOST_CYCLES;
    let lead = 1 <= o.lead && o.lead <= 1000;
    let depth = 1 <= o.depth && o.depth <= MOST_DEPTH;
    let tries = 1 <= o.tries && o.tries <= MOST_TRIES;
    cycles && lead && depth && tries
}
