//! What the words ask for, as it is held.

use crate::detail::Detail;
use mas_explore_listing::answers::Claim;

/// A claim of a line, without its line feed.
#[derive(Clone, Copy)]
pub struct Claimed<'a> {
    pub claim: Claim,
    pub line: &'a [u8],
}

/// A project, what its outcomes show, the limits of each search that an agent makes, how many states are followed at most, what is claimed of all outcomes,
/// and whether it is to be told how far the search has come.
#[derive(Clone, Copy)]
pub struct ExploreWords<'a> {
    pub project: &'a [u8],
    pub detail: Detail,
    pub depth: u64,
    pub tries: u64,
    pub states: u64,
    pub claimed: Option<Claimed<'a>>,
    pub progress: bool,
}

/// What the words ask for.
#[derive(Clone, Copy)]
pub enum ExploreAsked<'a> {
    Help,
    Version,
    Explore(ExploreWords<'a>),
}
