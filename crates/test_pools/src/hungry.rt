//! A mind that does nothing, and may want memory.

use asl_term::sequence::{Seq, Starved};
use asl_term::syntax::Text;
use mas_mind::mind::{Feedback, Input, Outs, Thought};
use mas_mind::thinking::Mind;
use std::alloc::Global;

/// A mind that is never quiet and asks for no action. It has no memory for its cycle of the number `last`.
#[derive(Drop)]
pub struct Hungry {
    pub me: u32,
    pub agents: u64,
    pub made: u64,
    pub waits: bool,
    pub last: u64,
    pub text: Text,
}

impl Mind for Hungry {
    ghost use Rattle.std.specs.Prelude.{refl};
    ghost use Rattle.test_pools.specs.Hungers.{hungry_kind};
    ghost use Rattle.test_pools.specs.Hungers as spec;

    ghost kind = { hungry_kind };

    ghost quiet_sends_nothing = { spec.quiet_sends_nothing };

    ghost quiet_again = { spec.quiet_again };

    ghost awaits_after = { λ m i. refl };

    ghost awaits_no_more = { λ m f. refl };

    ghost goes_on = { spec.goes_on };

    ghost is_told = { spec.is_told };

    fn think(&mut self, alloc: Global, input: Input) -> Result<Thought, Starved> {
        drop(input);
        self.made += 1;
        self.waits = false;
        if self.made == self.last {
            return Err(Starved);
        }
        Ok(Thought::Outs(Outs {
            action: None,
            messages: Seq::new(alloc),
            stop: false,
            quiet: false,
        }))
    }

    fn took(&mut self, _feedback: Feedback) {
        self.waits = false;
    }

    fn lines(&self) -> &Text {
        &self.text
    }
}
