//! The agents among which messages go.

ghost use Rattle.std.specs.Prelude.{◌≡◌, IfOk};
ghost use Rattle.asl_exec_circumstance.specs.Contents as spec;

use crate::shared::SharedNames;
use asl_term::copying::copy_text;
use asl_term::names::Names;
use asl_term::sequence::{Seq, Starved};
use asl_term::syntax::Text;
use std::alloc::Global;

/// The names of all agents, in order, and the number of the agent itself among them, from 1.
#[derive(Drop)]
pub struct Peers {
    pub names: SharedNames,
    pub me: u32,
}

/// The name of an agent by its number, from 1. Where no agent has the number it is empty.
pub fn agent_name(alloc: Global, names: &Names, number: u32) -> Result<Text, Starved>
    ensures { IfOk result (λ r. r ≡ spec.agent_name names.now number) }
{
    match names.at(number) {
        None => Ok(Seq::new(alloc)),
        Some(name) => copy_text(alloc, name),
    }
}
