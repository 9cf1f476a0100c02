//! What the search for an applicable plan gives.

use asl_intend::entry::Means;
use asl_resolve::answers::Spent;
use asl_unify::subst::Subst;

/// What the contexts of the relevant plans give.
#[derive(Drop)]
pub enum Chosen {
    /// The renamed means of the first plan whose context is found, with the solution and its next fresh number.
    Plan(Means, Subst, u64),
    Nothing,
    Spent(Spent),
}
