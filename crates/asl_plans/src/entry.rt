//! A plan with those who it is from.

use asl_term::sequence::Seq;
use asl_term::syntax::{Plan, Text};

/// Numbers of agents, each once. 0 stands for the source of the agent itself.
pub type Owners = Seq<u32>;

/// A plan, with those who it is from.
#[derive(Drop)]
pub struct OwnedPlan {
    pub plan: Plan,
    pub owners: Owners,
}

pub type OwnedPlans = Seq<OwnedPlan>;

/// What an owner takes back: one plan, or all plans of a label.
#[derive(Drop)]
pub enum Which {
    Same(Plan),
    Label(Text),
}
