//! What brings messages to the other site and from there.

ghost use Rattle.std.specs.Prelude.{◌≡◌, OnOk};
ghost use Rattle.mas_mind.specs.Minds.{IsAgent};
ghost use Rattle.mas_sites_stand.specs.Stands.{IsEntry};

use asl_term::sequence::Starved;
use mas_mind::mind::Message;
use std::alloc::Global;

/// It knows how many agents there are.
pub trait Carrier {
    ghost use Rattle.std.specs.Prelude.{ℕ, Option};
    ghost use Rattle.mas_mind.specs.declared.mind.Message.{Message};

    ghost agents: { Self → ℕ };

    /// What a call for the next message of an agent answers and leaves.
    ghost got: { Self → ℕ → Option Message → Self → Type 0 };

    /// What sending a message leaves.
    ghost put: { Self → Message → Self → Type 0 };

    /// The next message of an agent, where one has come.
    fn next(&mut self, a: u32) -> Option<Message>
        requires { IsAgent (agents self.old) a }
        ensures entry { IsEntry a (agents self.old) result }
        ensures got { got self.old a result self.new }
        ensures same { agents self.new ≡ agents self.old };

    /// Sends a message to the other site.
    fn send(&mut self, alloc: Global, m: &Message) -> Result<(), Starved>
        requires from { IsAgent (agents self.old) m.now.from }
        requires to { IsAgent (agents self.old) m.now.to }
        ensures put { OnOk result (put self.old m.now self.new) }
        ensures same { agents self.new ≡ agents self.old };
}
