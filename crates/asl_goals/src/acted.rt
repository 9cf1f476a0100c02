//! What an internal action did.

use asl_exec_circumstance::rows::Falls;
use asl_term::syntax::Text;
use mas_mind::mind::{Message, Messages};

/// Why an internal action is refused.
#[derive(Drop)]
pub enum Why {
    /// No agent has this name.
    UnknownReceiver(Text),
    /// The argument at this place, from 0, is the first that isn't of the stated shape.
    Argument(u64),
    /// Nothing matches the goal of `.intend` or `.desire`.
    NoMatch,
}

/// What an internal action did beside its change. For every answer but `Failed` the head of the current stack is removed,
/// unless its means were popped or the stack waits for an answer.
#[derive(Drop)]
pub enum Acted {
    /// It is done, and these stacks failed in it.
    Ok(Falls),
    /// The same, and nothing is left of the current stack.
    Gone(Falls),
    /// It sends these messages.
    Sent(Messages),
    /// It sends this ask, for whose answer the current stack waits.
    Asked(Message),
    /// It asks for the end of the whole run.
    Stop,
    /// It is refused, and nothing is changed.
    Failed(Why),
}
