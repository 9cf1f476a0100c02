//! What a search finds.

use asl_term::sequence::Seq;
use asl_term::syntax::Text;

/// A run: the limits of cycles and lead, and the numbers of the agents that make its turns.
pub struct Plan {
    pub cycles: u64,
    pub lead: u64,
    pub schedule: Seq<u64>,
}

/// By hand, as are those below, so that who lets one go proves nothing of its parts.
impl Drop for Plan {
    fn drop(self) {
        let Plan {
            cycles: _,
            lead: _,
            schedule: _,
        } = self;
    }
}

/// An outcome, and a run that has it.
pub struct Shown {
    pub text: Text,
    pub plan: Plan,
}

impl Drop for Shown {
    fn drop(self) {
        let Shown { text: _, plan: _ } = self;
    }
}

/// How far a list goes: it is whole; or more states were met than were to be followed; or no run was found with the outcome of a state at rest.
#[derive(Clone, Copy, Drop)]
pub enum Extent {
    All,
    Bound,
    Unshown,
}

/// Outcomes, in the order in which they were found, how far they go, and how many states were met.
#[derive(Drop)]
pub struct Listing {
    pub list: Seq<Shown>,
    pub extent: Extent,
    pub states: u64,
}
