//! A mind, by what its cycles make of it.

ghost use Rattle.std.specs.Prelude.{◌≡◌, ◌<◌, true, false, None, IfOk, IfSome, OnErr};
ghost use Rattle.mas_mind.specs.Limits.{most_cycles};
ghost use Rattle.mas_mind.specs.declared.mind.Input.{Input};
ghost use Rattle.mas_mind.specs.declared.mind.Feedback.{Feedback};
ghost use Rattle.mas_mind.specs.Minds.{Kind, are_ground, IsFor, AreLawful, is_quiet, SendsNothing, asks_feedback, Grows};

use crate::mind::{Feedback, Input, Thought};
use asl_term::sequence::Starved;
use asl_term::syntax::Text;
use std::alloc::Global;

/// The mind of an agent, whose number and that of all agents no call changes. It makes at most 1,000,000 cycles. After
/// `Starved` of `think` it is only asked for its lines, which are those of before, or dropped.
pub trait Mind: Drop {
    /// What the calls make of a mind.
    ghost kind: { Kind Self };

    /// A cycle: what is seen, and a message where there is one. After a thought with an action the mind awaits to be
    /// told what became of it.
    fn think(&mut self, alloc: Global, input: Input) -> Result<Thought, Starved>
        requires free { kind.awaits self.old ≡ false }
        requires short { kind.made self.old < most_cycles }
        requires ground { are_ground input.percepts ≡ true }
        requires sent { IfSome input.message (IsFor (kind.me self.old) (kind.agents self.old)) }
        ensures made { IfOk result (λ thought. kind.cycle self.old input ≡ record { mind = self.new; thought = thought }) }
        ensures lawful { IfOk result (AreLawful (kind.me self.old) (kind.agents self.old)) }
        ensures kept { OnErr result (kind.lines self.new ≡ kind.lines self.old) }
        ensures me { OnErr result (kind.me self.new ≡ kind.me self.old) }
        ensures agents { OnErr result (kind.agents self.new ≡ kind.agents self.old) };

    /// Tells the mind what became of its action. Its next cycle begins with that.
    fn took(&mut self, feedback: Feedback)
        requires { kind.awaits self.old ≡ true }
        ensures { self.new ≡ kind.took self.old feedback };

    /// The lines that its cycles have shown so far.
    fn lines(&self) -> &Text
        ensures { result.now ≡ kind.lines self.now };

    /// Quiet outs carry nothing.
    ghost quiet_sends_nothing: { (m : Self) (i : Input) → is_quiet (kind.cycle m i).thought ≡ true → SendsNothing (kind.cycle m i).thought };

    /// After a quiet cycle the same percepts without a message are quiet again.
    ghost quiet_again: { (m : Self) (i j : Input) → is_quiet (kind.cycle m i).thought ≡ true → j.percepts ≡ i.percepts → j.message ≡ None
        → is_quiet (kind.cycle (kind.cycle m i).mind j).thought ≡ true };

    /// After an action, and then alone, the mind awaits feedback.
    ghost awaits_after: { (m : Self) (i : Input) → kind.awaits (kind.cycle m i).mind ≡ asks_feedback (kind.cycle m i).thought };

    /// Feedback ends the wait.
    ghost awaits_no_more: { (m : Self) (f : Feedback) → kind.awaits (kind.took m f) ≡ false };

    /// A cycle counts one, and writes its lines behind those of before. Nothing else of what a platform sees of a
    /// mind is changed by its calls.
    ghost goes_on: { (m : Self) (i : Input) → Grows kind m (kind.cycle m i).mind 1 };

    /// Feedback is no cycle and writes no lines.
    ghost is_told: { (m : Self) (f : Feedback) → Grows kind m (kind.took m f) 0 };
}
